//! Pages of zeros that were made before.
ghost use Rattle.std.specs.Prelude.{◌≡◌, ◌<◌, ◌-◌, IfOk, length};
ghost use Rattle.wf_mapping.specs.Blanks as blanks;

use std::alloc::Global;
use std::marker::Model;
use wf_outside::{Memory, PAGE_WORDS};
use wf_views::Listed;

/// Pages of zeros, to be taken one after another without memory. What contracts see is how many
/// there are.
#[derive(Drop)]
pub struct Blanks {
    pages: Vec<Listed<u64>>,
}

impl Model for Blanks {
    ghost use Rattle.std.specs.Prelude.{◌≡◌, ℕ, length};
    ghost use Rattle.std.specs.List.{AllByRecursion};
    ghost use Rattle.wf_mapping.specs.Blanks.{blank};

    ghost Value = { ℕ };

    ghost view = { λ b. length b.pages.items };

    ghost invariant = { λ b. AllByRecursion (λ page. page ≡ blank) b.pages.items };
}

// So many zeros.
fn zeros(alloc: Global, n: usize) -> Result<Vec<u64>, Memory>
    ensures { IfOk result (λ v. v.items ≡ blanks.zeros n) }
{
    Ok(vec![in alloc; 0; n]?)
}

impl Blanks {
    /// So many pages of zeros.
    pub fn new(alloc: Global, count: u64) -> Result<Blanks, Memory>
        ensures { IfOk result (λ made. made ≡ count) }
    {
        let mut pages = Vec::new(alloc);
        for _ in 0..count {
            let page = zeros(alloc, PAGE_WORDS)?;
            pages.push(Listed::from_vec(page))?;
        }
        Ok(Blanks { pages })
    }

    /// One of the pages.
    pub fn take(&mut self) -> Vec<u64>
        requires { 0 < self.old }
        ensures page { result.items ≡ blanks.blank }
        ensures rest { self.new ≡ self.old - 1 }
    {
        let Some(page) = self.pages.pop() else {
            unreachable!();
        };
        page.into_vec()
    }
}
