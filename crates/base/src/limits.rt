//! The limits of what may be read, kept and written, each one named constant.

/// The greatest number of jobs of a document.
pub const MAX_JOBS: usize = 4_000;

/// The greatest release, deadline and end of a piece, and the greatest whole part of a slot's end, in
/// time units.
pub const MAX_TIME: u32 = 1_000_000_000;

/// The greatest work of a job, in units of work.
pub const MAX_WORK: u32 = 1_000_000;

/// The greatest speed of a run of a trace, in work per time unit.
pub const MAX_RUN_SPEED: u32 = 1_000_000;

/// The greatest number of operating points.
pub const MAX_POINTS: usize = 64;

/// The greatest speed of an operating point, in work per time unit.
pub const MAX_POINT_SPEED: u32 = 4_000;

/// The greatest power of an operating point, in energy per time unit.
pub const MAX_POINT_POWER: u32 = 1_000_000;

/// The greatest least common multiple of the gaps between the speeds of a table's lower hull, 2 to the
/// power 40.
pub const MAX_GAPS: u64 = 1_099_511_627_776;

/// The greatest denominator of a fraction, 2 to the power 60.
pub const MAX_DENOMINATOR: u64 = 1_152_921_504_606_846_976;

/// The greatest whole part that a fraction keeps.
pub const MAX_WHOLE: u64 = 10_000_000_000_000_000_000;

/// The greatest whole part of a slot's work, in units of work.
pub const MAX_SLOT_WORK: u64 = 1_000_000_000_000;

/// The greatest whole part of an energy.
pub const MAX_ENERGY: u64 = 1_000_000_000_000_000_000;

/// The greatest work of a level of a certificate, in units of work.
pub const MAX_LEVEL_WORK: u64 = 4_000_000_000;

/// The greatest length of a level of a certificate, in time units.
pub const MAX_LEVEL_LENGTH: u64 = 1_000_000_000;

/// The greatest number of slots of a schedule, those of runs among them.
pub const MAX_SLOTS: usize = 100_000;

/// The greatest number of levels of a certificate.
pub const MAX_LEVELS: usize = 100_000;

/// The greatest number of pieces of a certificate, over all its levels.
pub const MAX_PIECES: usize = 100_000;

/// The greatest number of members of a certificate, over all its levels.
pub const MAX_MEMBERS: usize = 100_000;

/// The greatest number of ticks in a time unit.
pub const MAX_TICKS: u32 = 1_000_000_000;

/// The greatest grid of a policy run: its works are multiples of one part in so many.
pub const MAX_GRID: u32 = 1_000_000;

/// The greatest number of event points at which a policy run may tell that it rounded.
pub const MAX_ROUNDED: u32 = 1_000_000;

/// The greatest length of a job's name, in bytes.
pub const MAX_NAME: usize = 64;

/// The greatest size of an input that is read as a document, in bytes.
pub const MAX_INPUT: usize = 8_388_608;

/// The greatest size of any text that a call of these crates takes, in bytes.
pub const MAX_BYTES: usize = 1_000_000_000;

/// The greatest seed of a trial.
pub const MAX_SEED: u32 = 4_294_967_295;

/// The greatest number of jobs that a trial draws.
pub const MAX_TRIAL_JOBS: u32 = 1_000;

/// The greatest top speed under which jobs are admitted, in work per time unit.
pub const MAX_TOP: u32 = 1_000_000;

/// The greatest number of periodic tasks.
pub const MAX_TASKS: usize = 4_000;

/// The greatest length of a task's name, in bytes: a job's name is the task's, a dot and the job's number.
pub const MAX_TASK_NAME: usize = 59;

// What the limits are to each other: each line is proved, and the crates above count on it.

// The slots of a plan, of a policy's run and of a rounded plan fit in a schedule; levels, pieces and members in a certificate.
const _: () = prove!(5 * MAX_JOBS <= MAX_SLOTS);

const _: () = prove!(MAX_JOBS <= MAX_LEVELS);

const _: () = prove!(3 * MAX_JOBS <= MAX_PIECES);

const _: () = prove!(MAX_JOBS <= MAX_MEMBERS);

// The work of all jobs fits in one level, the longest time in its length, and a job's work in a slot.
const _: () = prove!(MAX_JOBS as u64 * MAX_WORK as u64 <= MAX_LEVEL_WORK);

const _: () = prove!(MAX_TIME as u64 <= MAX_LEVEL_LENGTH);

const _: () = prove!(MAX_WORK as u64 <= MAX_SLOT_WORK);

// The energy at the greatest power for the longest time, and the rounded event points of a policy's run.
const _: () = prove!(MAX_TIME as u64 * MAX_POINT_POWER as u64 <= MAX_ENERGY);

const _: () = prove!(2 * MAX_JOBS <= MAX_ROUNDED as usize);

// A level's work, the ticks of a trace and the grid of a run beside the gaps are denominators, and works and energies are whole parts.
const _: () = prove!(MAX_LEVEL_WORK <= MAX_DENOMINATOR);

const _: () = prove!(MAX_TICKS as u64 <= MAX_DENOMINATOR);

const _: () = prove!(MAX_GRID as u64 * MAX_GAPS <= MAX_DENOMINATOR);

const _: () = prove!(MAX_SLOT_WORK <= MAX_WHOLE && MAX_ENERGY <= MAX_WHOLE);

// A task's name, a dot and the number of one of its jobs are a job's name; a trial's jobs are a document's.
const _: () = prove!(MAX_JOBS < 10_000 && MAX_TASK_NAME + 5 <= MAX_NAME);

const _: () = prove!(MAX_TRIAL_JOBS as usize <= MAX_JOBS);

// Two times are added in 32 bits, and an input is a text that a call takes.
const _: () = prove!(MAX_TIME <= u32::MAX - MAX_TIME);

const _: () = prove!(MAX_INPUT < MAX_BYTES);
