use crate::answer::Answer;
use yds_model::Status;
use yds_port::{Sink, WriteFault, write_all};

/// The answer to a question that needs operating points.
#[derive(Drop)]
pub enum WithPoints<A> {
    /// The document has none.
    NoTable,
    /// It has a table of them, and this is the answer.
    Answered(A),
}

impl<A: Answer> Answer for WithPoints<A> {
    ghost use Rattle.yds_answer.specs.WithPoints.{text_with_points, status_with_points};

    ghost text = { λ answer. text_with_points A.text answer };

    ghost ends = { λ answer. status_with_points A.ends answer };

    fn status(&self) -> Status {
        match self {
            WithPoints::NoTable => Status::Refused,
            WithPoints::Answered(answer) => answer.status(),
        }
    }

    fn write<K: Sink>(&self, sink: &mut K) -> Result<(), WriteFault> {
        match self {
            WithPoints::NoTable => write_all(sink, b"refused no-table\n"),
            WithPoints::Answered(answer) => answer.write(sink),
        }
    }
}
