// Dates and times.

/// The four bytes of a date and a time, to the minute (ProDOS 8 Technical Reference Manual, Appendix B); `pro_dates`
/// reads them.
#[derive(Clone, Copy, PartialEq, Eq)]
pub struct ProDate(pub [u8; 4]);
