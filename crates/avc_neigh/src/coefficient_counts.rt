//! nC, by which coeff_token is read (9.2.1).

ghost use Rattle.std.specs.Prelude.{◌≡◌, ◌<◌, take};
ghost use Rattle.std.specs.Option.{option_copied};
ghost use Rattle.avc_neigh.specs.TotalCoeffs.{mean, nc, nA, nB};

use crate::block_order::{above_block, is_leftmost, is_topmost, left_block};

/// nC from nA and nB, where their blocks are available.
#[inline]
fn mean_of(a: Option<u8>, b: Option<u8>) -> u8
    ensures { result ≡ mean a b }
{
    match (a, b) {
        (Some(a), Some(b)) => ((u16::from(a) + u16::from(b) + 1) >> 1) as u8,
        (Some(a), None) => a,
        (None, Some(b)) => b,
        (None, None) => 0,
    }
}

/// nA of luma block `k`.
#[inline]
fn luma_a(left: Option<&[u8; 16]>, done: &[u8; 16], k: usize) -> Option<u8>
    requires { k < 16 }
    ensures { result ≡ nA 16 (option_copied left.entry) (take k done.now) k }
{
    let place = left_block(k);
    if is_leftmost(k) {
        match left {
            Some(total_coeffs) => Some(total_coeffs[place]),
            None => None,
        }
    } else {
        Some(done[place])
    }
}

/// nB of luma block `k`.
#[inline]
fn luma_b(up: Option<&[u8; 16]>, done: &[u8; 16], k: usize) -> Option<u8>
    requires { k < 16 }
    ensures { result ≡ nB 16 (option_copied up.entry) (take k done.now) k }
{
    let place = above_block(k);
    if is_topmost(k) {
        match up {
            Some(total_coeffs) => Some(total_coeffs[place]),
            None => None,
        }
    } else {
        Some(done[place])
    }
}

/// nC of luma block `k` (9.2.1). `left` and `up` have total_coeff of the luma blocks of mbAddrA and
/// mbAddrB, where these are available, and `done` that of the macroblock's own, of which those
/// before block `k` count.
#[inline]
pub fn nc_luma(left: Option<&[u8; 16]>, up: Option<&[u8; 16]>, done: &[u8; 16], k: usize) -> u8
    requires { k < 16 }
    ensures { result
        ≡ nc 16 (option_copied left.entry) (option_copied up.entry) (take k done.now) k }
{
    mean_of(luma_a(left, done, k), luma_b(up, done, k))
}

/// nA of chroma block `k`.
#[inline]
fn chroma_a(left: Option<&[u8; 4]>, done: &[u8; 4], k: usize) -> Option<u8>
    requires { k < 4 }
    ensures { result ≡ nA 8 (option_copied left.entry) (take k done.now) k }
{
    if k & 1 == 0 {
        match left {
            Some(total_coeffs) => Some(total_coeffs[k + 1]),
            None => None,
        }
    } else {
        Some(done[k - 1])
    }
}

/// nB of chroma block `k`.
#[inline]
fn chroma_b(up: Option<&[u8; 4]>, done: &[u8; 4], k: usize) -> Option<u8>
    requires { k < 4 }
    ensures { result ≡ nB 8 (option_copied up.entry) (take k done.now) k }
{
    if k < 2 {
        match up {
            Some(total_coeffs) => Some(total_coeffs[k + 2]),
            None => None,
        }
    } else {
        Some(done[k - 2])
    }
}

/// nC of block `k` of Cb or of Cr (9.2.1), as `nc_luma` gives that of a luma block.
#[inline]
pub fn nc_chroma(left: Option<&[u8; 4]>, up: Option<&[u8; 4]>, done: &[u8; 4], k: usize) -> u8
    requires { k < 4 }
    ensures { result
        ≡ nc 8 (option_copied left.entry) (option_copied up.entry) (take k done.now) k }
{
    mean_of(chroma_a(left, done, k), chroma_b(up, done, k))
}
