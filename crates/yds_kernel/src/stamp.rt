//! A line's stamp: the processor, the time and the event's name.
ghost use Rattle.std.specs.Prelude.{◌≡◌, ◌<◌, ◌^◌, length};
ghost use Rattle.std.specs.Str.Parse.{digits_value};
ghost use Rattle.yds_kernel.specs.Parts.{capped};

/// The stamp of a line.
#[derive(Clone, Copy)]
pub(crate) struct Stamp<'a> {
    /// The processor's number.
    pub processor: u64,
    /// How many bytes of the line are left from the time on.
    pub left: usize,
    /// The time's seconds.
    pub seconds: u64,
    /// The digits behind the time's point.
    pub fraction: &'a [u8],
    /// The event's name, with the colon that ends it.
    pub word: &'a [u8],
    /// The event's text.
    pub text: &'a [u8],
    /// The number that they spell.
    pub parts: u64,
    pub ghost told: { parts ≡ capped (digits_value 10 fraction.now) },
    pub ghost below: { digits_value 10 fraction.now < 10 ^ length fraction.now },
}
