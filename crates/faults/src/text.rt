//! A fault as a sentence for a person.
use crate::{Fault, RecordQuestion, RowQuestion};
use std::error::Error;
use std::fmt;

impl fmt::Display for Fault {
    fn fmt<W: fmt::Write>(&self, f: &mut fmt::Formatter<W>) -> fmt::Result {
        match self {
            Fault::Record(refusal) => {
                let at = refusal.place;
                match refusal.question {
                    RecordQuestion::Whole => write!(
                        f,
                        "the bytes from {at} on are not a whole record"
                    ),
                    RecordQuestion::Kind => write!(
                        f,
                        "the record at byte {at} has no such kind, or a length that its kind does not have"
                    ),
                    RecordQuestion::Order => write!(
                        f,
                        "the record at byte {at} may not stand here"
                    ),
                }
            }
            Fault::Row(refusal) => {
                let count = refusal.place;
                match refusal.question {
                    RowQuestion::Limit => write!(f, "record {count} passes the limit of its kind"),
                    RowQuestion::Fields => write!(
                        f,
                        "record {count} has a field that is not lawful"
                    ),
                    RowQuestion::Rows => write!(
                        f,
                        "record {count} names a row that does not stand yet"
                    ),
                    RowQuestion::Depth => write!(f, "record {count} is deeper than 12"),
                    RowQuestion::Name => write!(
                        f,
                        "record {count} has the name of an earlier action"
                    ),
                    RowQuestion::Goal => write!(
                        f,
                        "there is no goal: record {count} should be one"
                    ),
                }
            }
            Fault::Memory => f.write_str("there is not enough memory"),
        }
    }
}

impl Error for Fault {}

#[cfg(test)]
mod tests {
    use crate::{Fault, RecordQuestion, Refusal, RowQuestion};
    use std::test::Fail;

    #[test]
    fn sentences(rt: HostRuntime) -> Result<(), Fail> {
        let whole = Fault::Record(Refusal {
            question: RecordQuestion::Whole,
            place: 8,
        });
        let depth = Fault::Row(Refusal {
            question: RowQuestion::Depth,
            place: 3,
        });
        assert_eq!(rt;
            format!(in rt.alloc(); "{whole}")?.as_str(),
            "the bytes from 8 on are not a whole record"
        );
        assert_eq!(rt;
            format!(in rt.alloc(); "{depth}")?.as_str(),
            "record 3 is deeper than 12"
        );
        assert_eq!(rt;
            format!(in rt.alloc(); "{}", Fault::Memory)?.as_str(),
            "there is not enough memory"
        );
        Ok(())
    }
}
