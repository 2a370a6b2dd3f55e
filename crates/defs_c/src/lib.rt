// The copying function of `defs` for C: what scripts/leaf-check takes apart and scripts/lend-rings
// calls. A library exports nothing to C, so it stands once more here, in a static library.
#![tactic(auto)]

ghost use Rattle.std.specs.Prelude.{◌≡◌};
ghost use Rattle.defs.specs.Copying.{copied};

#[unsafe(no_mangle)]
pub extern "C" fn vsock_copy(dst: &mut [u8], src: &[u8])
    ensures { dst.new ≡ copied dst.old src.now }
{
    defs::vsock_copy(dst, src);
}
