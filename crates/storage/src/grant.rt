ghost use Rattle.std.specs.Prelude.{◌≤◌};

// Leave to make one channel: its instance number, its first size and the count of its slots.
#[derive(Drop)]
pub struct Grant {
    pub(crate) instance: u32,
    pub(crate) size: usize,
    pub(crate) slots: usize,
    ghost small: { 2 ≤ size },
    ghost room: { size ≤ slots },
    ghost few: { slots ≤ 1048576 },
}
