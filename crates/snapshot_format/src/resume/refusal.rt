// Why a machine can't go on from a snapshot.

ghost use Rattle.std.specs.Prelude.{◌≡◌};
ghost use Rattle.snapshot_format.specs.Judgements.{refusal_number};

use thiserror::Error;

/// Why a machine can't go on from a snapshot under a policy: the first judgement that fails.
#[derive(Clone, Copy, Debug, Drop, Error)]
pub enum ResumeRefusal {
    /// Harts, RAM, an entry, a loaded module or the load under way aren't the policy's, or a module's pages aren't in RAM.
    #[error("the snapshot is of a machine under another policy")]
    OtherPolicy,
    /// Text, loaded modules and the load share a page, or a page's protection isn't the one that they give.
    #[error("two parties share a page of the snapshot, or a page has another protection than theirs")]
    OtherPages,
    /// The digests of the text don't join to the policy's.
    #[error("the text's digests are not those of the policy's kernel")]
    OtherKernel,
    /// A page of the text that isn't retired has another digest.
    #[error("a page of the kernel's text has been changed")]
    OtherText,
    /// A loaded module isn't as it was measured.
    #[error("a loaded module has been changed")]
    OtherModule,
}

impl ResumeRefusal {
    /// The number by which it is printed.
    pub fn number(self) -> u8
        ensures { result ≡ refusal_number self }
    {
        match self {
            ResumeRefusal::OtherPolicy => 4,
            ResumeRefusal::OtherPages => 5,
            ResumeRefusal::OtherKernel => 6,
            ResumeRefusal::OtherText => 7,
            ResumeRefusal::OtherModule => 8,
        }
    }
}
