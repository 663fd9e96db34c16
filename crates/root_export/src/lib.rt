// The square root of the crate `binary32` for a program in another language: `tools/root_all` calls it at every pattern.

#![tactic(auto)]

ghost use Rattle.std.specs.Prelude.{◌≡◌};
ghost use Rattle.binary32.specs.Sqrt.{rooted};
ghost use Rattle.root_export.specs.RootCall.{root_word};

// The root's bits, or 2 ^ 32 times the refusal's number.
#[tactic(auto, using(binary32::proofs::Answered::answer_no_nan))]
#[unsafe(no_mangle)]
pub extern "C" fn square_root(x: f32) -> u64
    ensures { result ≡ root_word (rooted x) }
{
    match binary32::root::sqrt(x) {
        Ok(r) => u64::from(f32::to_bits(r)),
        Err(refusal) => 0x1_0000_0000 * u64::from(refusal::number(refusal)),
    }
}
