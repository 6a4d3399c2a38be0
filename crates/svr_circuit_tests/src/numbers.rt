//! What the outputs of circuits are to read as, by the rules of the standard.

/// The circuits of one builder.
#[derive(Clone, Copy)]
pub(crate) enum Group {
    /// Sums, products and comparisons.
    Sums,
    Divisions,
    /// Shifts, a choice, extensions and reductions.
    Shapes,
}

/// What four bits read as in two's complement.
fn signed(number: u64) -> i64 {
    let low = (number % 16) as i64;
    if low < 8 { low } else { low - 16 }
}

/// The low four bits.
fn bits(number: i64) -> u64 {
    number.rem_euclid(16) as u64
}

/// What sums, products and comparisons are to read as.
fn summed(x: u64, y: u64) -> u64 {
    let (m, n) = (signed(x), signed(y));
    let tests = (x < y) as u64 | ((m < n) as u64) << 1 | ((x == y) as u64) << 2;
    let sum = x.wrapping_add(y) % 16;
    let difference = x.wrapping_sub(y) % 16;
    let product = x.wrapping_mul(y) % 16;
    let negated = x.wrapping_neg() % 16;
    sum | difference << 4 | product << 8 | negated << 12 | tests << 16
}

/// What divisions are to read as: the four hexadecimal digits, the lowest first, are the quotient
/// and the remainder without signs, and those with signs.
pub(crate) fn divided(x: u64, y: u64) -> u64 {
    let quotient = x.checked_div(y).unwrap_or(0) % 16;
    let remainder = x.checked_rem(y).unwrap_or(0) % 16;
    let (m, n) = (signed(x), signed(y));
    let signed_quotient = bits(m.checked_div(n).unwrap_or(0));
    let signed_remainder = bits(m.checked_rem(n).unwrap_or(0));
    quotient | remainder << 4 | signed_quotient << 8 | signed_remainder << 12
}

/// What shifts, a choice, extensions and reductions are to read as, where `is_first` is the test of the choice.
fn shaped(x: u64, y: u64, is_first: bool) -> u64 {
    let by = y.min(4);
    let left = (x << by) % 16;
    let right = x >> by;
    let filled = (signed(x) >> by).rem_euclid(16) as u64;
    let chosen = if is_first { x } else { y };
    let extended = signed(x).rem_euclid(64) as u64;
    let reductions = (x != 0) as u64 + 2 * (x == 15) as u64 + 4 * (x.count_ones() % 2) as u64;
    left | right << 4 | filled << 8 | chosen << 12 | extended << 16 | x << 22 | reductions << 28
}

/// What the outputs of a group are to read as.
pub(crate) fn expected(group: Group, inputs: u64) -> u64 {
    let (x, y) = (inputs % 16, inputs / 16 % 16);
    match group {
        Group::Sums => summed(x, y),
        Group::Divisions => divided(x, y),
        Group::Shapes => shaped(x, y, inputs / 256 == 1),
    }
}
