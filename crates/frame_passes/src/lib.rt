// The passes of a frame: read from their words, run in order on one sheet, and their outcomes noted, with who ran each.

#![tactic(auto)]

ghost use Rattle.std.specs.Prelude.{◌≡◌, ◌<◌, ◌≤◌, length, take};
ghost use Rattle.sheet.specs.Corners.{corner_lists};
ghost use Rattle.sizes.specs.Sizes.{pass_limit, all_pass_words, all_outcome_words};
ghost use Rattle.labels.specs.Kept.{box_kept};
ghost use Rattle.frame_passes.specs.Running.{pass_at, role_at, call_at, left, left_by_all, PassWords, AtFront};

use arguments::{FillParams, GrowParams, LocalExtensionParams, Pass};
use frame::FrameHead;
use roles::Role;
use sizes::PASS_WORDS;
use std::num::f32_from_bits_with_nan;

// The pass that the first six of seven words stand for: kind 0 is grow, 1 fill, and any other local. Who runs it is asked by the reader alone.
// Stays: the kinds are numbers, as the words are the C interface's; `call_text` makes a pass of other numbers at other places (a).
#[tactic(auto, unfolding(crate::specs::Running::pass_at))]
fn pass_at(passes: &[u32], k: usize) -> Pass
    requires k_lt_pass_limit { k < pass_limit }
    requires all_pass_words_in_bounds { all_pass_words ≤ length passes.now }
    ensures { result ≡ pass_at passes.now k }
{
    let words = &passes[PASS_WORDS * k..];
    let search = f32_from_bits_with_nan(words[1]);
    let factor = f32_from_bits_with_nan(words[2]);
    let third = f32_from_bits_with_nan(words[3]);
    match words[0] {
        0 => Pass::Grow(GrowParams {
            attach_search_rel: search,
            attach_ambiguity_factor: factor,
            boundary_search_factor: third,
        }),
        1 => Pass::Fill(FillParams {
            attach_search_rel: search,
            attach_ambiguity_factor: factor,
            max_iters: words[4],
        }),
        _ => Pass::Local(LocalExtensionParams {
            search_rel: search,
            ambiguity_factor: factor,
            max_iters: words[4],
            max_residual_rel: third,
            extend_depth: words[5],
        }),
    }
}

// Who runs a pass: the last of its seven words.
fn role_at(passes: &[u32], k: usize) -> Role
    requires k_lt_pass_limit { k < pass_limit }
    requires all_pass_words_in_bounds { all_pass_words ≤ length passes.now }
    ensures { result ≡ role_at passes.now k }
{
    roles::numbered(passes[PASS_WORDS * k + 6])
}

// Runs the passes of a frame in order on one sheet, and notes their outcomes, with who ran each. Its corners stand at the front of their buffers.
// The first pass is handed the label box of the head, each later one what the one before it left.
// Stays: the buffers are lent on to the passes, whose public calls lend each list by itself (d).
pub fn run_frame(
    passes: &[u32],
    xs: &[f32],
    ys: &[f32],
    pitches: &[f32],
    shades: &[u8],
    sheet: &mut [u16],
    queue: &mut [u16],
    attached: &mut [u16],
    head: FrameHead,
    words: &mut [u32],
)
    requires pass_words { PassWords head.passes passes.now }
    requires at_front { AtFront head.corners xs.now ys.now pitches.now shades.now }
    requires box_read { head.around ≡ box_kept sheet.old }
    requires all_outcome_words_in_bounds { all_outcome_words ≤ length words.old }
    ensures { left sheet.new words.new
        ≡ left_by_all (corner_lists (take head.corners xs.now) (take head.corners ys.now)
        (take head.corners pitches.now)) (call_at head.settings (take head.corners shades.now)
        (length queue.old) (length attached.old) passes.now) (role_at passes.now) head.passes 0
        (left sheet.old words.old) }
{
    let corners = head.corners;
    let mut around = head.around;
    // Stays: the outcome is put by the pass's number, and the definition reads the pass by it from all words; chunks would have the number beside them as well (d).
    for k in 0..head.passes {
        let pass = pass_at(passes, k);
        let answer = pass_call::call_pass(
            &xs[..corners],
            &ys[..corners],
            &pitches[..corners],
            &shades[..corners],
            sheet,
            around,
            queue,
            attached,
            head.settings,
            pass,
        );
        around = answer.map_or(around, |(_, left)| left);
        report_words::put::put_outcome(
            words,
            k,
            role_at(passes, k),
            answer.map(|(stats, _)| stats),
        );
    }
}
