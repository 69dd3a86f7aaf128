// Usage figures: a row of the figures sheet, and what is told in it.
#![tactic(auto)]

ghost use Rattle.std.specs.Prelude.{◌≡◌, cond, eqb, ltb};
ghost use Rattle.table.specs.declared.Lease.{Lease};
ghost use Rattle.figures.specs.Figures.{
  untold,
  untold_row,
  empty_row,
  given,
  filed,
};

mod figure;

pub use figure::Figure;
use option_entry::{Figures, HighWater, InUse, Unusable};

// The row of a lease. A figure of which nothing was told is UNTOLD, the sheet's own number for it.
#[derive(Clone, Copy)]
pub struct FigureRow {
    pub network: u32,
    pub length: u8,
    pub high_water: HighWater,
    pub in_use: InUse,
    pub unusable: Unusable,
}

pub const UNTOLD: u16 = 65535;

// ROWS

// The row of a lease of which nothing is told.
pub fn untold_row(network: u32, length: u8) -> FigureRow
    ensures { (x : Lease) → x.network ≡ network → x.length ≡ length → result ≡ untold_row x }
{
    FigureRow {
        network,
        length,
        high_water: HighWater(UNTOLD),
        in_use: InUse(UNTOLD),
        unusable: Unusable(UNTOLD),
    }
}

// The row of an empty slot.
pub fn empty_row() -> FigureRow
    ensures { result ≡ empty_row }
{
    untold_row(0, 0)
}

// FILING

// A figure of an entry at its place, if the entry has so many; one that is missing is untold.
fn told<F: Figure>(count: usize, place: usize, f: F) -> F
    ensures { result ≡ given (ltb place count) (F.of_number untold) f }
{
    if place < count { f } else { F::of(UNTOLD) }
}

// What is told, or what was told before.
fn newer<F: Figure>(old: F, new: F) -> F
    ensures { result ≡ cond (eqb (F.number_of new) untold) old new }
{
    if new.number() == UNTOLD { old } else { new }
}

// The figures of an entry into a row.
pub fn filed_row(f: Figures, r: FigureRow) -> FigureRow
    ensures { result ≡ filed f r }
{
    FigureRow {
        high_water: newer(r.high_water, told(f.count, 0, f.high_water)),
        in_use: newer(r.in_use, told(f.count, 1, f.in_use)),
        unusable: newer(r.unusable, told(f.count, 2, f.unusable)),
        ..r
    }
}
