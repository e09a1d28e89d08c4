ghost use Rattle.yds_model.specs.HullLaws.{HullExists, HullIsComputed, HullIsLowest};

/// The law that no line between two points of a table runs below the table's lower hull.
///
/// So a processor that alternates between two operating points spends least on neighbours of the hull:
/// the two-point theorem of Ishihara and Yasuura (ISLPED 1998), for a table of any powers.
#[tactic(auto, using(model_lemmas::proofs::Hull::hull_is_lowest))]
pub fn hull_is_lowest()
    ensures { HullIsLowest }
{}

/// The law that a table has one lower hull: the points that lie above no line between an earlier and a later
/// point.
#[tactic(auto, using(model_lemmas::proofs::HullOf::hull_is_computed))]
pub fn hull_is_computed()
    ensures { HullIsComputed }
{}

/// The law that points of rising speed have a lower hull: what is computed for them is one.
#[tactic(auto, using(model_lemmas::proofs::HullExists::hull_exists))]
pub fn hull_exists()
    ensures { HullExists }
{}
