// What a command answers, before it is written as text.
use ongoing::Point;
use stamps::ReferenceSet;

pub enum Reply<C> {
    // The command is done, and there is nothing to tell.
    Done,
    Place(u32),
    Stamp(C),
    // There is no stamp at the place. No `Option` in `Stamp`, which every other command fills.
    Absent,
    Point(Point<C>),
    Set(ReferenceSet),
    // The list of the commands.
    Commands,
}
