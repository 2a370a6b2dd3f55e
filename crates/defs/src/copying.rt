// The one function that copies bytes.
ghost use Rattle.std.specs.Prelude.{◌≡◌, ◌≤◌, length};
ghost use Rattle.defs.specs.Copying.{copied};
ghost use Rattle.defs.specs.Limits.{max_packet};

use crate::limits::MAX_PKT_BUF_SIZE;

// As many bytes as both hold go from `src` to the front of `dst`; the rest of `dst` stays.
pub fn copy(dst: &mut [u8], src: &[u8])
    ensures { dst.new ≡ copied dst.old src.now }
{
    let n = dst.len().min(src.len());
    copy_whole(&mut dst[..n], &src[..n]);
}

// The same under a C name, by which `defs_c` exports it: what scripts/leaf-check takes apart and
// scripts/lend-rings calls.
#[unsafe(no_mangle)]
pub extern "C" fn vsock_copy(dst: &mut [u8], src: &[u8])
    ensures { dst.new ≡ copied dst.old src.now }
{
    copy(dst, src);
}

// In runs of a packet's length, so that each fits the local array of `copy_run`. The loop stays:
// with `chunks_mut` zipped to `chunks` the proof of what the runs leave in `dst` did not close.
fn copy_whole(dst: &mut [u8], src: &[u8])
    requires { length dst.old ≡ length src.now }
    ensures { dst.new ≡ src.now }
{
    let mut at = 0;
    while at < src.len() {
        let end = at + (src.len() - at).min(MAX_PKT_BUF_SIZE);
        copy_run(&mut dst[at..end], &src[at..end]);
        at = end;
    }
}

// By way of a local array, so that LLVM makes one memmove of both copies and drops the array: for
// all that it knows `dst` and `src` overlap, and one `copy_from_slice` from the one to the other
// would keep a loop over bytes for that (scripts/leaf-check, docs/DECISIONS.md).
fn copy_run(dst: &mut [u8], src: &[u8])
    requires dst_len { length dst.old ≡ length src.now }
    requires src_len_bound { length src.now ≤ max_packet }
    ensures { dst.new ≡ src.now }
{
    let mut room = [0u8; MAX_PKT_BUF_SIZE];
    let space = &mut room[..src.len()];
    space.copy_from_slice(src);
    dst.copy_from_slice(space);
}
