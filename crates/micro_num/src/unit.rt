//! The unit of a text's numbers. STL does not name one, so the caller does.
/// The unit that the numbers of a text are in.
#[derive(Clone, Copy, Debug, PartialEq, Eq)]
pub enum Unit {
    /// 1,000 micrometres.
    Millimetre,
    /// 25,400 micrometres.
    Inch,
    /// 10,000 micrometres.
    Centimetre,
    /// 1,000,000 micrometres.
    Metre,
}
