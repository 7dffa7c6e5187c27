// What a command about points answers. The words are read from the left, and the first that cannot be
// read decides.
ghost use Rattle.answers.specs.Points.{compares, Writes, Fails, NoStamp, AnsweredPoints};
ghost use Rattle.notation.specs.Forms.{PointRead};
ghost use Rattle.ongoing.specs.Points.{place_at};
ghost use Rattle.spans.specs.Stretches.{Where};
ghost use Rattle.std.specs.Prelude.{◌≡◌, [], ◌∷◌, MatchResult};

use crate::replies::Reply;
use calendar::{Printable, Refusal};
use language::{Comparison, Ends, PointCommand};
use notation::read_point;
use ongoing::{Interval, Point, Relation};
use stamps::ReferenceSet;

// The point that the word writes.
fn written<C: Printable>(word: &str) -> Result<Point<C>, Refusal>
    ensures { PointRead C.Calendar C.Printable.own word.now result }
{
    read_point(word.as_bytes())
}

// The stamp that the word is the text of.
fn stamp<C: Printable>(word: &str) -> Result<C, Refusal>
    ensures { MatchResult result (λ s. C.Printable.text (C.Calendar.place s) ≡ word.now) (λ e. NoStamp C.Calendar C.Printable.own word.now e) }
{
    C::read(word.as_bytes())
}

// The two points that the words write.
fn two<C: Printable>(p: &str, q: &str) -> Result<(Point<C>, Point<C>), Refusal>
    ensures { MatchResult result (λ x. Writes C.Calendar C.Printable.own p.now x.0 × Writes C.Calendar C.Printable.own q.now x.1) (λ e. Fails C.Calendar C.Printable.own (p.now ∷ q.now ∷ []) e) }
{
    Ok((written(p)?, written(q)?))
}

// The interval between the points that the words write.
fn interval<C: Printable>(start: &str, end: &str) -> Result<Interval<C>, Refusal>
    ensures { MatchResult result (λ i. Writes C.Calendar C.Printable.own start.now i.start × Writes C.Calendar C.Printable.own end.now i.end) (λ e. Fails C.Calendar C.Printable.own (start.now ∷ end.now ∷ []) e) }
{
    let (start, end) = two::<C>(start, end)?;
    Ok(Interval { start, end })
}

// Where the comparison holds of the two points.
fn compared<C: Printable>(comparison: Comparison, p: Point<C>, q: Point<C>) -> ReferenceSet
    ensures { Where C.Calendar.LAST_PLACE result (λ r. compares comparison (place_at C.Calendar.LAST_PLACE p r) (place_at C.Calendar.LAST_PLACE q r)) }
{
    match comparison {
        Comparison::Before => p.before(q),
        Comparison::Equal => p.equal(q),
        Comparison::AtMost => p.at_most(q),
    }
}

// The functions from here to `answer_points` answer one command each, which its contract names; so
// `lesser` and `greater` stay two.
fn show<C: Printable>(p: &str) -> Result<Reply<C>, Refusal>
    ensures { AnsweredPoints C.Calendar C.Printable.own (PointCommand.Point p.entry) result }
{
    Ok(Reply::Point(written(p)?))
}

fn bind<C: Printable>(p: &str, reference: &str) -> Result<Reply<C>, Refusal>
    ensures { AnsweredPoints C.Calendar C.Printable.own (PointCommand.Bind p.entry reference.entry) result }
{
    let p = written::<C>(p)?;
    let reference = stamp::<C>(reference)?;
    Ok(Reply::Stamp(p.bind(reference)))
}

fn lesser<C: Printable>(p: &str, q: &str) -> Result<Reply<C>, Refusal>
    ensures { AnsweredPoints C.Calendar C.Printable.own (PointCommand.Lesser p.entry q.entry) result }
{
    let (p, q) = two::<C>(p, q)?;
    Ok(Reply::Point(p.lesser(q)))
}

fn greater<C: Printable>(p: &str, q: &str) -> Result<Reply<C>, Refusal>
    ensures { AnsweredPoints C.Calendar C.Printable.own (PointCommand.Greater p.entry q.entry) result }
{
    let (p, q) = two::<C>(p, q)?;
    Ok(Reply::Point(p.greater(q)))
}

fn compare<C: Printable>(comparison: Comparison, p: &str, q: &str) -> Result<Reply<C>, Refusal>
    ensures { AnsweredPoints C.Calendar C.Printable.own (PointCommand.Compare comparison p.entry q.entry) result }
{
    let (p, q) = two::<C>(p, q)?;
    Ok(Reply::Set(compared(comparison, p, q)))
}

fn relate<C: Printable>(relation: Relation, ends: Ends) -> Result<Reply<C>, Refusal>
    ensures { AnsweredPoints C.Calendar C.Printable.own (PointCommand.Relate relation ends.entry) result }
{
    let i = interval::<C>(ends.start, ends.end)?;
    let j = interval::<C>(ends.from, ends.to)?;
    Ok(Reply::Set(i.related(relation, j)))
}

fn hold<C: Printable>(start: &str, end: &str, p: &str) -> Result<Reply<C>, Refusal>
    ensures { AnsweredPoints C.Calendar C.Printable.own (PointCommand.Holds start.entry end.entry p.entry) result }
{
    let i = interval::<C>(start, end)?;
    let p = written::<C>(p)?;
    Ok(Reply::Set(i.holds(p)))
}

// The command's answer, on the calendar `C`. Takes a step for each byte of its words.
pub fn answer_points<C: Printable>(command: PointCommand) -> Result<Reply<C>, Refusal>
    ensures { AnsweredPoints C.Calendar C.Printable.own command.entry result }
{
    match command {
        PointCommand::Point(p) => show(p),
        PointCommand::Bind(p, reference) => bind(p, reference),
        PointCommand::Lesser(p, q) => lesser(p, q),
        PointCommand::Greater(p, q) => greater(p, q),
        PointCommand::Compare(comparison, p, q) => compare(comparison, p, q),
        PointCommand::Relate(relation, ends) => relate(relation, ends),
        PointCommand::Holds(start, end, p) => hold(start, end, p),
    }
}
