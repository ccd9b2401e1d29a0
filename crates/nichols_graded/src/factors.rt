//! The factors `1 + t + .. + t^(k-1)` of the series of an algebra's dimensions.

ghost use Rattle.std.specs.Prelude.{◌≡◌, ◌+◌, ◌-◌, ◌<◌, ◌≤◌, ◌^◌, IfOk, MatchOption, false, true, length, map, nat_eq, nat_le, option_map, take};
ghost use Rattle.std.specs.List.{list_all};
ghost use Rattle.nichols_graded.specs.Factors.{factors_of, is_one, quotient, quotient_of};

use std::alloc::{AllocError, Global};
use std::mem;

/// Takes `by` from each coefficient, or says that one of them is smaller.
fn lower(coefficients: &mut [u64], by: u64) -> bool
    ensures lowered { result ≡ list_all (nat_le by) coefficients.old }
    ensures rest { result ≡ true → coefficients.new ≡ map (λ x. x - by) coefficients.old }
{
    for coefficient in coefficients {
        if *coefficient < by {
            return false;
        }
        *coefficient -= by;
    }
    true
}

/// Whether all coefficients are 0.
fn is_zero(coefficients: &[u64]) -> bool
    ensures { result ≡ list_all (λ x. nat_eq x 0) coefficients.now }
{
    coefficients.iter().all(|x| *x == 0)
}

/// Whether the polynomial is 1.
fn is_one(coefficients: &[u64]) -> bool
    ensures { result ≡ is_one coefficients.now }
{
    coefficients.len() == 1 && coefficients[0] == 1
}

/// Divides a polynomial by `1 + t + .. + t^(k-1)` in place, for a quotient of so many coefficients. Says whether the quotient is
/// exact and has no negative coefficient; if not, what is left says nothing.
fn divide_in_place(polynomial: &mut [u64], k: usize, count: usize) -> bool
    requires some { 1 ≤ k }
    requires long { length polynomial.old ≡ count + (k - 1) }
    ensures { MatchOption (quotient_of count k polynomial.old) (result ≡ false) (λ q. (result ≡ true) × (take count polynomial.new ≡ q)) }
{
    for i in 0..count {
        let by = polynomial[i];
        if !lower(&mut polynomial[i + 1..i + k], by) {
            return false;
        }
    }
    is_zero(&polynomial[count..])
}

/// Divides a polynomial by `1 + t + .. + t^(k-1)`, if the quotient is exact and has no negative coefficient; otherwise what is left
/// says nothing.
fn divide(polynomial: &mut Vec<u64>, k: usize) -> bool
    requires { 1 ≤ k }
    ensures { MatchOption (quotient k polynomial.old.items) (result ≡ false) (λ q. (result ≡ true) × (polynomial.new.items ≡ q)) }
{
    if polynomial.len() + 1 < k {
        return false;
    }
    let count = polynomial.len() + 1 - k;
    let exact = divide_in_place(polynomial.as_mut_slice(), k, count);
    polynomial.truncate(count);
    exact
}

/// The factors of the polynomial of these dimensions, which end with a 0; none where it isn't the product of its factors.
pub(crate) fn factors_of(alloc: Global, dimensions: &[u64]) -> Result<Option<Vec<u32>>, AllocError>
    requires { length dimensions.now < 2 ^ 32 }
    ensures { IfOk result (λ r. option_map (λ v. v.items) r ≡ factors_of dimensions.now) }
{
    let mut polynomial = dimensions[..dimensions.len().saturating_sub(1)].to_vec(alloc)?;
    let mut trial = Vec::new(alloc);
    let mut factors = Vec::new(alloc);
    let mut k = polynomial.len();
    while k >= 2 {
        trial.clear();
        trial.extend_from_slice(polynomial.as_slice())?;
        if divide(&mut trial, k) {
            factors.push(k as u32)?;
            mem::swap(&mut polynomial, &mut trial);
        } else {
            k -= 1;
        }
    }
    if !is_one(polynomial.as_slice()) {
        return Ok(None);
    }
    Ok(Some(factors))
}
