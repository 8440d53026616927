// What holds of the times of deliveries.
ghost use Rattle.std.specs.Prelude.{◌≡◌, ℕ, ◌+◌, ◌-◌, ◌<◌, ◌≤◌, true, false};
ghost use Rattle.delivery_times.specs.Times.{slot, is_due_again, age_of};
ghost use Rattle.delivery_times.specs.declared.times.Age.TheVariants as ages;

/// An older item is in no earlier slot.
pub fn slots_never_fall()
    ensures { (younger older : ℕ) → younger ≤ older → slot younger ≤ slot older }
{}

/// Within 900 seconds the next slot comes.
pub fn a_slot_ends_within_900_seconds()
    ensures { (seconds : ℕ) → slot seconds < slot (seconds + 900) }
{}

/// And within 300 seconds of the first 1,800.
pub fn a_first_slot_ends_within_300_seconds()
    ensures { (seconds : ℕ) → seconds + 300 ≤ 1800 → slot seconds < slot (seconds + 300) }
{}

/// No two slots begin within 300 seconds.
pub fn a_slot_lasts_300_seconds()
    ensures { (seconds : ℕ) → slot (seconds + 300) ≤ slot seconds + 1 }
{}

/// An item that was due at a moment isn't due again at that moment, and is at any moment at least 900 seconds behind it.
pub fn an_item_is_due_again_in_time()
    ensures not_yet { (made due : ℕ) → is_due_again made (slot (due - made)) due ≡ false }
    ensures in_time { (made due moment : ℕ) → made ≤ due → due + 900 ≤ moment → is_due_again made (slot (due - made)) moment ≡ true }
{}

/// What is late was fresh before, and what is expired was late before.
pub fn each_age_comes_in_its_order()
    ensures late { (younger older : ℕ) → younger ≤ older → age_of younger ≡ ages.Late → age_of older ≡ ages.Fresh → ⊥ }
    ensures expired { (younger older : ℕ) → younger ≤ older → age_of younger ≡ ages.Expired → age_of older ≡ ages.Expired }
{}
