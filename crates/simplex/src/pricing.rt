//! The choice of a row that enters a basis, by prices in 128 bits.
//!
//! A price is the product of a row and a row of the inverse, over about the greatest number of the first. To form
//! prices fast, the row of the inverse is shortened. So a price is a hint: whoever takes a row tests it.

use crate::integers::{lowered, most_bits};
use exact384::Integer;
use linear_rows::{Row, Rows};
use std::alloc::{AllocError, Global};

/// How many bits the numbers have of which prices are formed.
const BITS: u32 = 60;

/// Up to this number of rows all are gone over, and the cheapest is taken.
const FEW_ROWS: usize = 64;

/// Of more rows this number is gone over at once, and the cheapest of them is taken, if its price is below 0.
const ROWS_AT_ONCE: usize = 16;

/// A row of the inverse, shortened.
#[derive(Drop)]
pub struct Prices {
    numbers: Vec<i128>,
}

impl Prices {
    /// Room for as many numbers as there are columns.
    pub fn new(alloc: Global, columns: usize) -> Result<Prices, AllocError> {
        Ok(Prices {
            numbers: vec![in alloc; 0; columns]?,
        })
    }

    /// Shortens the numbers of a row of the inverse.
    pub fn shorten(&mut self, inverse: &[Integer]) {
        let places = most_bits(inverse).saturating_sub(BITS);
        for (number, whole) in self.numbers.iter_mut().zip(inverse.iter()) {
            *number = lowered(*whole, places);
        }
    }

    /// The place of a row of a price below 0, if one is found: the cheapest of those that are gone over at once, from
    /// the one at `from` on, and around.
    pub fn cheapest(&self, rows: &Rows, from: usize) -> Option<usize> {
        let many = rows.list.len();
        let at_once = if many > FEW_ROWS { ROWS_AT_ONCE } else { many };
        let mut best = Best {
            place: None,
            price: 0,
        };
        let mut left = at_once;
        let mut place = from;
        for _ in 0..many {
            if place >= many {
                place = 0;
            }
            best = best.or(place, self.price(rows.list.get(place)));
            place += 1;
            left = left.saturating_sub(1);
            if left == 0 {
                if best.place.is_some() {
                    return best.place;
                }
                left = at_once;
            }
        }
        best.place
    }

    /// The price of a row. Where numbers do not fit, it is any number.
    fn price(&self, row: &Row) -> i128 {
        let Some((first, rest)) = self.numbers.split_first() else {
            return 0;
        };
        let mut sum = row.constant.wrapping_mul(*first);
        let mut sizes = row.constant.unsigned_abs();
        for (number, price) in row.coeffs.as_slice().iter().zip(rest.iter()) {
            sum = sum.wrapping_add(number.wrapping_mul(*price));
            sizes |= number.unsigned_abs();
        }
        sum >> (u128::BITS - sizes.leading_zeros()).min(127)
    }
}

/// The cheapest row so far, and its price, or 0 where there is none.
#[derive(Clone, Copy)]
struct Best {
    place: Option<usize>,
    price: i128,
}

impl Best {
    /// The cheaper of the row and another one.
    fn or(self, place: usize, price: i128) -> Best {
        if price < self.price {
            Best {
                place: Some(place),
                price,
            }
        } else {
            self
        }
    }
}
