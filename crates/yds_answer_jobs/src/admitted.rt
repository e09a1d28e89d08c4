ghost use Rattle.std.specs.Prelude.{◌<◌, length};
ghost use Rattle.std.specs.List.{All};

use document_value::Document;
use yds_admit::Refusal;
use yds_instance::Instance;

/// A document of the admitted jobs, and why the others aren't: what `admit` answers.
#[derive(Drop)]
pub struct AdmittedDocument<'a> {
    /// The admitted jobs with their slots.
    pub(crate) document: Document<'a>,
    /// All jobs, by whose numbers the refusals tell theirs.
    pub(crate) instance: Instance<'a>,
    /// A refusal for each job that isn't admitted.
    pub(crate) refused: Vec<Refusal>,
    /// The top speed, in work per time unit.
    pub(crate) top: u32,
    pub(crate) ghost known: { All (λ refusal. refusal.job < length instance.jobs) refused.items },
}
