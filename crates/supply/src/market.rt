// The numbers of a fixing beside its lists.

#[derive(Clone, Copy)]
pub struct FixingNumbers {
    // The month that is fixed.
    pub month: u64,
    // The day of that month from which it applies: 1 for the whole month.
    pub day: u64,
    // In hundredths of $.
    pub dollar: u64,
    // In ten-thousandths.
    pub reference_factor: u64,
    // The first month of the index table.
    pub first_month: u64,
}
