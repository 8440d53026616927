// Laws of requests: a text asks for one thing, and it doesn't matter where the pieces of an input end.
ghost use Rattle.std.specs.Prelude.{◌≡◌, ◌++◌, ℕ, List};
ghost use Rattle.http_head.specs.declared.deed.Deed.{Deed};
ghost use Rattle.http_answers.specs.declared.refusal.Refusal.{Refusal};
ghost use Rattle.admin_http.specs.Requests.{Refuses, Asks};

use mail_names::laws::{an_approval_name_reads_back, an_item_name_reads_back};

/// What a check refuses it refuses whatever follows.
pub fn refusals_stay()
    ensures { (text more : List ℕ) (refusal : Refusal) → Refuses text refusal → Refuses (text ++ more) refusal }
{
    http_head::laws::bad_heads_stay();
}

/// A whole request is asked whatever follows.
pub fn requests_stay()
    ensures { (text more body : List ℕ) (deed : Deed) → Asks text deed body → Asks (text ++ more) deed body }
{}

/// What a check refuses asks for nothing.
pub fn refusals_ask_nothing()
    ensures { (text body : List ℕ) (refusal : Refusal) (deed : Deed) → Refuses text refusal → Asks text deed body → ⊥ }
{}

/// A text is refused by one check.
pub fn refusals_are_determined()
    ensures { (text : List ℕ) (refusal other : Refusal) → Refuses text refusal → Refuses text other → refusal ≡ other }
{}

/// A text asks for one deed, with one body.
pub fn requests_are_determined()
    ensures { (text body other : List ℕ) (deed another : Deed) → Asks text deed body → Asks text another other → (deed ≡ another) × (body ≡ other) }
{
    an_item_name_reads_back();
    an_approval_name_reads_back();
}
