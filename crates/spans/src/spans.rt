// A point and an interval by their places.
ghost use Rattle.std.specs.Prelude.{◌≤◌};

// What a point moves over as the reference place goes on: it stands at `early` up to there, at `late`
// from there on, and between them it is the reference place itself. No span runs backward.
#[derive(Clone, Copy)]
pub struct Span {
    pub early: u32,
    pub late: u32,
    ghost ordered: { early ≤ late },
}

// From `start` on and before `end`: empty where the start is not before the end.
#[derive(Clone, Copy)]
pub struct Period {
    pub start: Span,
    pub end: Span,
}
