// Where a relaxation was left: the values of variables and the multipliers of rows.
use crate::tables::{at_or, between, multiplier, set};
use std::alloc::{AllocError, Global};

/// A value for each variable and a multiplier for each row. A relaxation that changed little is
/// solved in few iterations from where it was left.
#[derive(Drop)]
pub struct Point {
    // By variable, from 0, which none has: from 0 to 1.
    values: Vec<f64>,
    // By row: finite, from 0.
    multipliers: Vec<f64>,
    // How long steps of multipliers are beside those of values (Applegate et al. 2021: the primal
    // weight); 0 before it is known.
    scale: f64,
}

/// The value of a variable that was never solved for.
const MIDDLE: f64 = 0.5;

impl Point {
    /// The point where each value is a half and each multiplier is 0.
    pub fn new(alloc: Global) -> Self {
        Point {
            values: Vec::new(alloc),
            multipliers: Vec::new(alloc),
            scale: 0.0,
        }
    }

    /// The value of a variable: from 0 to 1.
    pub fn value(&self, variable: u32) -> f64 {
        at_or(&self.values, variable as usize, MIDDLE)
    }

    /// The multiplier of the row with this number: finite, from 0.
    pub fn multiplier(&self, number: u32) -> f64 {
        at_or(&self.multipliers, number as usize, 0.0)
    }

    /// The row with this number gets this multiplier; 0 if it is not finite, or below 0.
    ///
    /// # Errors
    ///
    /// `AllocError` where memory was refused; the point stays as it is.
    pub fn set_multiplier(&mut self, number: u32, value: f64) -> Result<(), AllocError> {
        self.widen(0, number as usize + 1)?;
        self.put_multiplier(number, value);
        Ok(())
    }

    /// The length of steps is chosen anew, as for another cost.
    pub fn forget_scale(&mut self) {
        self.scale = 0.0;
    }

    /// Goes to another point.
    ///
    /// # Errors
    ///
    /// `AllocError` where memory was refused; some numbers may be those of the other point then.
    pub fn go_to(&mut self, other: &Point) -> Result<(), AllocError> {
        self.values.clear();
        self.values.extend_from_slice(&other.values)?;
        self.multipliers.clear();
        self.multipliers.extend_from_slice(&other.multipliers)?;
        self.scale = other.scale;
        Ok(())
    }

    /// There is room for `variables` variables, from 0, and `rows` rows.
    pub(crate) fn widen(&mut self, variables: usize, rows: usize) -> Result<(), AllocError> {
        if self.values.len() < variables {
            self.values.resize(variables, MIDDLE)?;
        }
        if self.multipliers.len() < rows {
            self.multipliers.resize(rows, 0.0)?;
        }
        Ok(())
    }

    /// Writes a value where there is room for it.
    pub(crate) fn put_value(&mut self, variable: u32, value: f64) {
        set(
            &mut self.values,
            variable as usize,
            between(value, 0.0, 1.0),
        );
    }

    /// Writes a multiplier where there is room for it.
    pub(crate) fn put_multiplier(&mut self, number: u32, value: f64) {
        set(&mut self.multipliers, number as usize, multiplier(value));
    }

    /// How long steps of multipliers are beside those of values; 0 where that is not known.
    pub(crate) fn scale(&self) -> f64 {
        self.scale
    }

    /// The same, for the next time.
    pub(crate) fn set_scale(&mut self, scale: f64) {
        self.scale = scale;
    }
}
