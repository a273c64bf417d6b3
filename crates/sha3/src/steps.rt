// The step mappings of Keccak, plane by plane, under the names of the standard.
ghost use Rattle.std.specs.Prelude.{◌≡◌, ◌+◌};
ghost use Rattle.sha3.specs.Lanes.{ROTL, plane, lane, lane_at};
ghost use Rattle.sha3.specs.Keccak.{D, θ, ρ, π, turned, Rnd};

use crate::constants::{PLANE, State};
use std::array;

// A lane for each x, as a plane has.
type Plane = [u64; PLANE];

// The planes of a state.
type Planes = (Plane, Plane, Plane, Plane, Plane);

// What θ adds to the lanes at each x.
fn column_terms(a: State) -> Plane
    ensures { result ≡ plane (D a) }
{
    let parities: Plane = array::from_fn(|x| a[x] ^ a[x + 5] ^ a[x + 10] ^ a[x + 15] ^ a[x + 20]);
    array::from_fn(|x| parities[(x + 4) % PLANE] ^ parities[(x + 1) % PLANE].rotate_left(1))
}

fn theta(a: State) -> State
    ensures { result ≡ θ a }
{
    let d = column_terms(a);
    [
        a[0] ^ d[0],
        a[1] ^ d[1],
        a[2] ^ d[2],
        a[3] ^ d[3],
        a[4] ^ d[4],
        a[5] ^ d[0],
        a[6] ^ d[1],
        a[7] ^ d[2],
        a[8] ^ d[3],
        a[9] ^ d[4],
        a[10] ^ d[0],
        a[11] ^ d[1],
        a[12] ^ d[2],
        a[13] ^ d[3],
        a[14] ^ d[4],
        a[15] ^ d[0],
        a[16] ^ d[1],
        a[17] ^ d[2],
        a[18] ^ d[3],
        a[19] ^ d[4],
        a[20] ^ d[0],
        a[21] ^ d[1],
        a[22] ^ d[2],
        a[23] ^ d[3],
        a[24] ^ d[4],
    ]
}

// The lanes of a plane, each rotated by its own offset.
fn rotated(b: Plane, by: [u32; PLANE]) -> Plane
    ensures { result ≡ plane (λ x. ROTL (lane by x) (lane b x)) }
{
    array::from_fn(|x| b[x].rotate_left(by[x]))
}

fn chi(b: Plane) -> Plane
    ensures { result ≡ plane (λ x. turned (lane b x) (lane b (x + 1)) (lane b (x + 2))) }
{
    array::from_fn(|x| b[x] ^ (!b[(x + 1) % PLANE] & b[(x + 2) % PLANE]))
}

// ρ rotates the lanes, and π gathers them into new planes.
fn rho_pi(a: State) -> Planes
    ensures plane0 { result.0 ≡ plane (λ x. lane_at (π (ρ a)) x 0) }
    ensures plane1 { result.1 ≡ plane (λ x. lane_at (π (ρ a)) x 1) }
    ensures plane2 { result.2 ≡ plane (λ x. lane_at (π (ρ a)) x 2) }
    ensures plane3 { result.3 ≡ plane (λ x. lane_at (π (ρ a)) x 3) }
    ensures plane4 { result.4 ≡ plane (λ x. lane_at (π (ρ a)) x 4) }
{
    (
        rotated([a[0], a[6], a[12], a[18], a[24]], [0, 44, 43, 21, 14]),
        rotated([a[3], a[9], a[10], a[16], a[22]], [28, 20, 3, 45, 61]),
        rotated([a[1], a[7], a[13], a[19], a[20]], [1, 6, 25, 8, 18]),
        rotated([a[4], a[5], a[11], a[17], a[23]], [27, 36, 10, 15, 56]),
        rotated([a[2], a[8], a[14], a[15], a[21]], [62, 55, 39, 41, 2]),
    )
}

// A round with its constant, which ι adds.
pub(crate) fn round(a: State, constant: u64) -> State
    ensures { result ≡ Rnd a constant }
{
    let (b0, b1, b2, b3, b4) = rho_pi(theta(a));
    let p0 = chi(b0);
    let p1 = chi(b1);
    let p2 = chi(b2);
    let p3 = chi(b3);
    let p4 = chi(b4);
    [
        p0[0] ^ constant,
        p0[1],
        p0[2],
        p0[3],
        p0[4],
        p1[0],
        p1[1],
        p1[2],
        p1[3],
        p1[4],
        p2[0],
        p2[1],
        p2[2],
        p2[3],
        p2[4],
        p3[0],
        p3[1],
        p3[2],
        p3[3],
        p3[4],
        p4[0],
        p4[1],
        p4[2],
        p4[3],
        p4[4],
    ]
}
