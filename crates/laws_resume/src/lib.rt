//! The laws of a run that goes on from a saved state: which pages are approved, and what it prints; and what a run tells of
//! itself: how many events were made while the machine ran, and which device its disk is behind.
#![tactic(auto)]

ghost use Rattle.laws_resume.specs.Resumed.{ResumedLaw};
ghost use Rattle.laws_resume.specs.ResumedSound.{ResumedGoesOnLaw, ResumedSoundLaw};
ghost use Rattle.laws_resume.specs.SavedAccepted.{SavedAcceptedLaw};
ghost use Rattle.laws_resume.specs.SavedForm.{SavedFormLaw};
ghost use Rattle.laws_resume.specs.SavedResumes.{SavedResumesLaw};
ghost use Rattle.laws_resume.specs.Continues.{AlikeLaw, ContinuesLaw};
ghost use Rattle.laws_resume.specs.Keepable.{KeepableLaw, KeepsLaw};
ghost use Rattle.laws_resume.specs.EventCounts.{CountedLaw};
ghost use Rattle.laws_resume.specs.DiskKinds.{KindLaw};

/// From any sound state, and not from a start alone: each approved page is the kernel's text, as it was there and not
/// retired, or a loaded module's; and digests that are kept of the text stay right.
pub fn law_resumed()
    ensures { ResumedLaw }
{}

/// No event tells apart two states that differ in the bytes that were printed before and in the order of approved pages.
pub fn law_alike()
    ensures { AlikeLaw }
{}

/// What a run prints that is broken off and goes on from what was saved is what the whole run prints.
pub fn law_continues()
    ensures { ContinuesLaw }
{}

/// From any sound state, a run keeps what a snapshot asks besides soundness.
pub fn law_keeps()
    ensures { KeepsLaw }
{}

/// Each state that a run reaches from a start has it.
pub fn law_keepable()
    ensures { KeepableLaw }
{}

/// The state in which a machine goes on from a snapshot that isn't refused is sound, whoever made the snapshot's bytes; it
/// can be saved again, and its text has the digests that join to the policy's.
pub fn law_resumed_sound()
    ensures { ResumedSoundLaw }
{}

/// Whatever it does from there: each approved page is a page of text as it stood in the snapshot, or a loaded module's, and the
/// digests are right still.
pub fn law_resumed_goes_on()
    ensures { ResumedGoesOnLaw }
{}

/// A machine that goes on from a snapshot of a state, under the same policy, is in that state with nothing printed.
pub fn law_saved_resumes()
    ensures { SavedResumesLaw }
{}

/// A snapshot of a state isn't refused under the same policy.
pub fn law_saved_accepted()
    ensures { SavedAcceptedLaw }
{}

/// What was saved has an encoding, and so is read again as it was, where its numbers are words, as its types say, its device
/// and its disk go together, and no count is above the number of events.
pub fn law_saved_form()
    ensures { SavedFormLaw }
{}

/// The counts of the four kinds of events rise by as many as are made while the machine runs.
pub fn law_counted()
    ensures { CountedLaw }
{}

/// The disk stays behind the device that it was behind.
pub fn law_kind()
    ensures { KindLaw }
{}

pub mod standing;
pub mod start;
