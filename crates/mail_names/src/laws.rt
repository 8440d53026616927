// What holds of names and their texts.
ghost use Rattle.std.specs.Prelude.{◌≡◌};
ghost use Rattle.mail_names.specs.Names.{name_text, name_order, approval_text, approval_order, IsItemName, IsApprovalName};
ghost use Rattle.mail_names.specs.declared.name.ApprovalName.{ApprovalName};
ghost use Rattle.mail_names.specs.declared.name.ItemName.{ItemName};

use crate::{ApprovalName, ItemName};

/// A text is that of one name alone, so `ItemName::read` of a name's text gives that name.
pub fn an_item_name_reads_back()
    ensures { (m n : ItemName) → IsItemName m → IsItemName n → name_text m ≡ name_text n → m ≡ n }
{}

/// A text is that of one name alone, so `ApprovalName::read` of a name's text gives that name.
pub fn an_approval_name_reads_back()
    ensures { (m n : ApprovalName) → IsApprovalName m → IsApprovalName n → approval_text m ≡ approval_text n → m ≡ n }
{}

/// Item names stand in the order of their submissions, then releases, places and marks, numbers by their value.
pub fn item_names_are_ordered()
    ensures { (a b : ItemName) → ⟦<ItemName as Ord>⟧.cmp a b ≡ name_order a b }
{}

/// Approvals' names stand in the order of their submissions, then releases and gates, numbers by their value.
pub fn approval_names_are_ordered()
    ensures { (a b : ApprovalName) → ⟦<ApprovalName as Ord>⟧.cmp a b ≡ approval_order a b }
{}
