// The text of a block that a file holds.
ghost use Rattle.std.specs.Prelude.{◌≡◌, ◌≢◌, ◌^◌, ◌<◌, ◌++◌, ℕ, IfSome, OnOk, string_bytes};
ghost use Rattle.report.specs.Contents.{content_text, shown_number};
ghost use Rattle.vol_base.specs.NumberBlock.{number_block};

use fingerprint::digest_of;
use std::alloc::{AllocError, Global};
use vol_base::{Block, number_block};

// Adds the block's number, or else its digest.
pub fn write_content(alloc: Global, text: &mut String, block: &Block) -> Result<(), AllocError>
    ensures { OnOk result (string_bytes text.new ≡ string_bytes text.old ++ content_text block.now) }
{
    match shown_number(block) {
        Some(n) => write!(text, "= {n}"),
        None => {
            let digits = hex::encode(alloc, digest_of(block).0)?;
            write!(text, "# {digits}")
        }
    }
}

// The number of a number block, or `None` for any other block.
fn shown_number(block: &Block) -> Option<u64>
    ensures value { result ≡ shown_number block.now }
    ensures some { IfSome result (λ n. block.now ≡ number_block n) }
    ensures none { result ≡ None → (n : ℕ) → n < 2 ^ 64 → block.now ≢ number_block n }
{
    let n = block.u64_at(0);
    if number_block(n).same(block) {
        Some(n)
    } else {
        None
    }
}
