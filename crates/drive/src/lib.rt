// From a wheel order to a speed for each wheel (docs/RULES.md V1 to V15): what the motor stage
// wants.
//
//     no order                  0 and 0 (V9)
//     Drive, radius r           right v(r + 129)/r, left v(r - 129)/r, each rounded (V2 to V4)
//     Drive, radius 1           right v, left -v (V5)
//     Drive, radius -1          right -v, left v (V6)
//     Drive, 32767, -32768      both v (V7)
//     Direct                    as it is (V8)
//
// then each is capped to -500 and 500 (V10). An order that is not legal is refused, number 4 (V12).
//
// Proved (specs/Stage.antt): each speed before the cap is the nearest whole number, the only one
// but at a half, and there the one further from zero; the cap and its flag in every case; the
// speeds are odd in the velocity; no wheel is told more than 500; an accepted record's order is
// never refused, and in Off and Passive the wheels stand. Nothing overflows for any order. For C
// and Rust it is `firmware`'s `wheel_speeds`.
#![tactic(auto)]

ghost use Rattle.std.specs.Prelude.{◌≡◌, ◌<◌, ◌≤◌, Ok, nat_abs, ◌+ℤ◌, ◌*ℤ◌};
ghost use Rattle.drive.specs.Rounding.{nearest_of};
ghost use Rattle.drive.specs.Orders.{curve_of, cap_of, given, told_speeds, speeds_of};

use state::Motors;
use wire::Refusal;

// The wheel centres are 258 mm apart: how far to the right of the middle each is.
const RIGHT: i32 = 129;

const LEFT: i32 = -129;

// The fastest that a wheel turns, either way.
const FASTEST: i32 = 500;

// The speed of each wheel, and whether either was capped.
#[derive(Clone, Copy, Debug, PartialEq, Eq)]
pub struct Speeds {
    pub right: i16,
    pub left: i16,
    pub capped: bool,
}

// Both wheels' speeds before the cap.
#[derive(Clone, Copy, Debug, PartialEq, Eq)]
struct Wheels {
    right: i32,
    left: i32,
}

// n / d to the nearest whole number, halves away from zero: the quotient, or the next where twice
// the rest is no less than the divisor. The greatest numerator is one less than fits, so that there
// is room for the next.
fn nearest(n: i32, d: i32) -> i32
    requires d_nonzero { 0 < nat_abs d }
    requires n_bound { nat_abs n < 2147483647 }
    ensures { result ≡ nearest_of n d }
{
    let quotient = n / d;
    if 2 * wire::magnitude(n % d) < wire::magnitude(d) {
        return quotient;
    }
    if (n < 0) == (d < 0) {
        quotient + 1
    } else {
        quotient - 1
    }
}

// A wheel's speed on a plain radius, the wheel standing so far to the right of the middle. Of any
// velocity and radius the numerator is within 32 bits.
fn on_curve(velocity: i16, radius: i16, offset: i32) -> i32
    requires radius_nonzero { 0 < nat_abs radius }
    requires offset_bound { nat_abs offset ≤ 129 }
    ensures { result ≡ nearest_of (velocity *ℤ (radius +ℤ offset)) radius }
{
    let r = i32::from(radius);
    nearest(i32::from(velocity) * (r + offset), r)
}

// Both wheels by velocity and radius.
fn curve(velocity: i16, radius: i16) -> Wheels
    requires { 0 < nat_abs radius }
    ensures { result ≡ curve_of velocity radius }
{
    let v = i32::from(velocity);
    match radius {
        1 => Wheels { right: v, left: -v },
        -1 => Wheels { right: -v, left: v },
        32767 | -32768 => Wheels { right: v, left: v },
        _ => Wheels {
            right: on_curve(velocity, radius, RIGHT),
            left: on_curve(velocity, radius, LEFT),
        },
    }
}

// To -500 and 500.
fn cap(speed: i32) -> i32
    ensures { result ≡ cap_of speed }
{
    speed.clamp(-FASTEST, FASTEST)
}

// Each wheel capped alone, and whether that changed either. A capped speed fits 16 bits: `try_from`
// would have an error that never comes.
fn cap_both(wheels: Wheels) -> Speeds
    ensures { told_speeds (Ok result) ≡ given wheels }
{
    let right = cap(wheels.right);
    let left = cap(wheels.left);
    Speeds {
        right: right as i16,
        left: left as i16,
        capped: right != wheels.right || left != wheels.left,
    }
}

// The speeds of a wheel order as the state record has it, and C hands it on: its kind, which may be
// any number, and its two numbers. It is legal by the record's own rule. A refusal has no speeds;
// where it is told in numbers, both are 0 and neither was capped (`refused`, rule V12), so that a
// motor stage that looks at the speeds alone stands.
pub fn wheel_speeds(kind: u8, first: i16, second: i16) -> Result<Speeds, Refusal>
    ensures { told_speeds result ≡ speeds_of kind first second }
{
    let order = Motors {
        order: kind,
        first,
        second,
        duties: [0; 3],
    };
    if !state::wheels_ok(order) {
        return Err(Refusal::NotLegal);
    }
    // Capped in each arm: the compiler sees there that a legal Direct's speeds need none.
    match kind {
        state::DRIVE => Ok(cap_both(curve(first, second))),
        state::DIRECT => Ok(cap_both(Wheels {
            right: i32::from(first),
            left: i32::from(second),
        })),
        _ => Ok(cap_both(Wheels { right: 0, left: 0 })),
    }
}
