// Commands that ask about points and intervals, all written as words.
ghost use Rattle.language.specs.Points.{ComparisonRead, RelationRead, PointsRead};
ghost use Rattle.language.specs.Words.{texts};

use crate::misreads::Misread;
use spans::Relation;
use std::str::FromStr;

// How two points are compared.
#[derive(Clone, Copy)]
pub enum Comparison {
    Before,
    Equal,
    AtMost,
}

// The comparison that the word names. Takes a step for each byte.
impl FromStr for Comparison {
    type Err = Misread;

    ghost from_str_gives = { ComparisonRead };

    fn from_str(word: &str) -> Result<Comparison, Misread> {
        match word {
            "before" => Ok(Comparison::Before),
            "equal" => Ok(Comparison::Equal),
            "at-most" => Ok(Comparison::AtMost),
            _ => Err(Misread::UnknownComparison),
        }
    }
}

// The relation that the word names. No `FromStr`: the type belongs to another crate, and its words to
// this one.
fn relation(word: &str) -> Result<Relation, Misread>
    ensures { RelationRead word.now result }
{
    match word {
        "before" => Ok(Relation::Before),
        "meets" => Ok(Relation::Meets),
        "overlaps" => Ok(Relation::Overlaps),
        "during" => Ok(Relation::During),
        "equals" => Ok(Relation::Equals),
        _ => Err(Misread::UnknownRelation),
    }
}

// The ends of two intervals: the first from `start` to `end`, the second from `from` to `to`.
#[derive(Clone, Copy)]
pub struct Ends<'a> {
    pub start: &'a str,
    pub end: &'a str,
    pub from: &'a str,
    pub to: &'a str,
}

#[derive(Clone, Copy)]
pub enum PointCommand<'a> {
    // The point, in its shortest form.
    Point(&'a str),
    // What the point is at the reference stamp.
    Bind(&'a str, &'a str),
    // The lesser of the two, and the greater.
    Lesser(&'a str, &'a str),
    Greater(&'a str, &'a str),
    // Where the comparison of the two holds.
    Compare(Comparison, &'a str, &'a str),
    // Where the interval from start to end has the relation to that between the other two.
    Relate(Relation, Ends<'a>),
    // Where the interval of the first two holds the third.
    Holds(&'a str, &'a str, &'a str),
}

// The command on points that the words spell. Takes a step for each byte.
impl<'a> TryFrom<&[&'a str]> for PointCommand<'a> {
    type Error = Misread;

    ghost try_from_gives = { λ ws. PointsRead (texts ws.now) };

    fn try_from(words: &[&'a str]) -> Result<PointCommand<'a>, Misread> {
        match words {
            ["point", p] => Ok(PointCommand::Point(p)),
            ["bind", p, stamp] => Ok(PointCommand::Bind(p, stamp)),
            ["lesser", p, q] => Ok(PointCommand::Lesser(p, q)),
            ["greater", p, q] => Ok(PointCommand::Greater(p, q)),
            ["compare", how, p, q] => Ok(PointCommand::Compare(how.parse()?, p, q)),
            ["relation", how, start, end, from, to] => {
                let ends = Ends {
                    start,
                    end,
                    from,
                    to,
                };
                Ok(PointCommand::Relate(relation(how)?, ends))
            }
            ["holds", start, end, p] => Ok(PointCommand::Holds(start, end, p)),
            _ => Err(Misread::of(words)),
        }
    }
}
