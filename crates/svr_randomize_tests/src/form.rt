// The items that are asked.

/// The items of a call over `rand bit [7:0] x, y; bit s [200]; randc bit [1:0] c; rand bit d [];`. The last two are random in the calls that name them alone.
#[derive(Clone, Copy)]
pub enum Form {
    /// `x == x`
    Free,
    /// `x + y == 16'd300`
    Sum,
    /// `x != x`
    Never,
    /// `x * y == 16'd257`: 257 is prime
    Product,
    /// `foreach (s[i]) x * y == 64'd257`
    Heavy,
    /// `soft x == 8'd1`
    Soft,
    /// `soft x == 8'd1; soft x == 8'd2`
    Overruled,
    /// `x == x`, and `c` is random
    Cyclic,
    /// `d.size() == 32'd3`
    Sized,
    /// `d.size() != d.size()`
    NoSize,
    /// `d.size() == 32'd17`
    Large,
}
