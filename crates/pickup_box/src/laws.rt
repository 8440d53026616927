// What holds of pickup files and their names.
ghost use Rattle.std.specs.Prelude.{◌≡◌, ℕ, ◌<◌, ◌^◌, true, List, Option, Some};
ghost use Rattle.std.specs.List.{join_with_byte};
ghost use Rattle.pickup_box.specs.Addresses.{pieces, AreWhole};
ghost use Rattle.pickup_box.specs.FileNames.{begun_stem, new_stem, IsBegunName, IsNewName};
ghost use Rattle.mail_submission.specs.Submission.{Submitted, same_submission};
ghost use Rattle.pickup_box.specs.PickupOf.{pickup_of};
ghost use Rattle.pickup_box.specs.Works.{mark_of, moved};
ghost use Rattle.pickup_box.specs.declared.addresses.Inside.TheVariants as inside;

/// The pieces of a value are the value with a comma between each two, and none of them is split again.
pub fn pieces_split_the_value()
    ensures joined { (value : List ℕ) → join_with_byte 44 (pieces inside.Nothing value) ≡ value }
    ensures whole { (value : List ℕ) → AreWhole inside.Nothing (pieces inside.Nothing value) }
{}

/// A file was begun exactly where its name is a stem, a dot, a decimal number without leading zeros and `.tmp`.
pub fn begun_names_are_told()
    ensures found { (name stem : List ℕ) → begun_stem name ≡ Some stem → IsBegunName name stem }
    ensures only { (name stem : List ℕ) → IsBegunName name stem → begun_stem name ≡ Some stem }
{}

/// A file is new exactly where its name is a stem and `.eml`.
pub fn new_names_are_told()
    ensures found { (name stem : List ℕ) → new_stem name ≡ Some stem → IsNewName name stem }
    ensures only { (name stem : List ℕ) → IsNewName name stem → new_stem name ≡ Some stem }
{}

/// A file that was begun keeps its mark, whatever number the next submission gets: a file that a crash left behind its
/// submission is submitted under the same mark.
pub fn marks_stay()
    ensures { (name : List ℕ) (number other : ℕ) → number < 2 ^ 64 → mark_of (mark_of name number) other ≡ mark_of name number }
{}

/// A file that has its mark's name has the bytes that it had before, and what it stands for then is a repeat of what it
/// stood for: a fault or a crash between the submission and the file's end makes no second submission.
pub fn left_files_repeat()
    ensures bytes { (name : List ℕ) (number : ℕ) (files : List ℕ → Option (List ℕ)) → moved name (mark_of name number) files (mark_of name number) ≡ files name }
    ensures repeat { (name bytes : List ℕ) (number other : ℕ) (first second : Submitted) → number < 2 ^ 64 → pickup_of (mark_of name number) bytes ≡ Some first → pickup_of (mark_of (mark_of name number) other) bytes ≡ Some second → same_submission first second ≡ true }
{}
