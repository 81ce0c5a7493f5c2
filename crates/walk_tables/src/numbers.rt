// Whole numbers: packed weights, divisions, logarithms and powers.

/// By what a packed weight multiplies the value at a period.
pub const FINE: i64 = 1 << 16;

/// The weight `w + q * t` at a period `t`, and the slope `q` with a sign of its own to tell equal values apart.
#[inline]
pub fn packed(w: i64, q: i64, t: i64, sign: i64) -> i64 {
    let value = w.wrapping_add(q.wrapping_mul(t));
    value.wrapping_mul(FINE).wrapping_add(q.wrapping_mul(sign))
}

/// The value of a packed weight.
#[inline]
pub fn value(weight: i64) -> i64 {
    weight.wrapping_add(FINE / 2) >> 16
}

/// Value and signed slope of a packed weight.
#[inline]
pub fn parts(weight: i64) -> (i64, i64) {
    let whole = value(weight);
    (whole, weight.wrapping_sub(whole.wrapping_mul(FINE)))
}

/// a / b rounded down; 0 where b isn't above 0.
#[inline]
pub fn floor(a: i64, b: i64) -> i64 {
    if b <= 0 { 0 } else { a.div_euclid(b) }
}

/// a / b rounded up; 0 where b isn't above 0.
#[inline]
pub fn up(a: i64, b: i64) -> i64 {
    floor(a.wrapping_add(b).wrapping_sub(1), b)
}

/// 16 times the logarithm to base 2 of x, linear between powers of two; 0 for an x below 1.
#[inline]
pub fn logarithm(x: i64) -> i64 {
    if x < 1 {
        return 0;
    }
    let power = x.ilog2();
    let front = if power >= 4 {
        x >> (power - 4)
    } else {
        x << (4 - power)
    };
    (16 * power as i64).wrapping_add(front).wrapping_sub(16)
}

/// 1024 * 2^(-m / 256), linear between whole powers; 1024 for an m below 0.
#[inline]
pub fn fade(m: i64) -> i64 {
    if m < 0 {
        return 1024;
    }
    (1024 - 2 * (m % 256)) >> (m / 256).min(20)
}
