//! What is read of data: the latest that was written there.
ghost use Rattle.wf_laws.specs.Bytes.{LooksAreLatest, SwapsAreLatest};

use rv_inst::words_are_rows;

/// A load of data reads in each byte what the latest store or atomic memory operation wrote to it
/// since its page was mapped, by whichever hart of whichever generation. Where there was none it is
/// what the mapping brought, and without a mapping the byte that was there at the start.
pub fn looks_are_latest()
    ensures { LooksAreLatest }
{
    words_are_rows();
}

/// An atomic memory operation reads in each byte what the latest store or atomic memory operation
/// wrote to it since its page was mapped, by whichever hart of whichever generation. Where there
/// was none it is what the mapping brought, and without a mapping the byte that was there at the
/// start.
pub fn swaps_are_latest()
    ensures { SwapsAreLatest }
{
    words_are_rows();
}
