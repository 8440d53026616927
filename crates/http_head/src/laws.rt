// Laws of heads: a text has one answer, and it doesn't matter where the pieces of an input end.
ghost use Rattle.std.specs.Prelude.{◌++◌, ℕ, List};
ghost use Rattle.http_head.specs.declared.route.RoutedHead.{RoutedHead};
ghost use Rattle.http_head.specs.declared.route.HeadFault.{HeadFault};
ghost use Rattle.http_head.specs.Heads.{IsBadHead, IsRefusedHead, IsPassedHead, ReadsHead, SameAnswer};
ghost use Rattle.http_head.specs.declared.head.Head.{Head};

/// A text has one answer: its head may still come, is refused by one fault, or is whole and asks for one thing.
pub fn one_answer()
    ensures { (text : List ℕ) (a b : Head) → ReadsHead text a → ReadsHead text b → SameAnswer text a b }
{}

/// What is refused as it stands is refused whatever follows.
pub fn bad_heads_stay()
    ensures { (text more : List ℕ) → IsBadHead text → IsBadHead (text ++ more) }
{}

/// A whole head that a later check refuses is refused whatever follows.
pub fn refused_heads_stay()
    ensures { (text more : List ℕ) (fault : HeadFault) → IsRefusedHead text fault → IsRefusedHead (text ++ more) fault }
{}

/// A head that no check refuses passes whatever follows, which then stands behind it.
pub fn passed_heads_stay()
    ensures { (text more target rest : List ℕ) (routed : RoutedHead) → IsPassedHead text routed target rest → IsPassedHead (text ++ more) routed target (rest ++ more) }
{}
