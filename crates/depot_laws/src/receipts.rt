//! Receipts: what a node says by signature that it holds.
ghost use Rattle.std.specs.Prelude.{◌≡◌, ℕ, List, [], ◌∷◌, ◌++◌, length, true, Some, None, ◌<◌, ◌↔◌};
ghost use Rattle.depot_base.specs.declared.update.Update.{Update};
ghost use Rattle.depot_base.specs.declared.voucher.Voucher.{Voucher};
ghost use Rattle.depot_base.specs.declared.record.Record.{Record};
ghost use Rattle.depot_base.specs.declared.record.Record.TheVariants.{OwnPut};
ghost use Rattle.depot_model.specs.lists.Lists.{IsIn};
ghost use Rattle.depot_model.specs.texts.Contents.{NamedValue};
ghost use Rattle.depot_model.specs.journals.Journal.{held_as};
ghost use Rattle.depot_model.specs.checks.Checks.{Setting, Given, growth};
ghost use Rattle.depot_model.specs.checks.Vouching.{records_of};
ghost use Rattle.depot_model.specs.worlds.Causality.{puts_of};
ghost use Rattle.depot_model.specs.worlds.World.{World, IsWorld, IsAuthentic};
ghost use Rattle.depot_model.specs.worlds.Receipts.{receipt_key, receipt_of, gives_receipt, HoldsAllOf, AreReceiptsTrue, no_receipt};
ghost use Rattle.depot_laws.specs.ReceiptFacts.{GivesTrueReceipts, WritesNoReceipt, WritesReceipts, HaveTrueReceipts, count_incorrect, ReceiptsSettle};

/// A key is a receipt's for an id exactly where it is the 8 bytes `receipt:` followed by the id's 32 bytes.
pub fn receipt_keys()
    ensures { (key h : List ℕ) → (receipt_of key ≡ Some h ↔ ((key ≡ receipt_key h) × (length h ≡ 32))) }
{}

/// The receipts of a journal stay true in each prefix of it, so in each crash image, and with whatever the node is
/// later given or vouches for. With a further own put they stay true where each receipt that it gives is for what is
/// held: so where it writes no key of a receipt, and where it writes only those for ids against which nothing speaks.
pub fn receipts_stay_true()
    ensures none { AreReceiptsTrue [] }
    ensures front { (J more : List Record) → AreReceiptsTrue (J ++ more) → AreReceiptsTrue J }
    ensures silent { (J new : List Record) → puts_of new ≡ [] → AreReceiptsTrue J → AreReceiptsTrue (J ++ new) }
    ensures given { (here : Setting) (J : List Record) (x : Given) → AreReceiptsTrue J → AreReceiptsTrue (J ++ growth here J x) }
    ensures vouched { (J : List Record) (vs : List Voucher) → AreReceiptsTrue J → AreReceiptsTrue (J ++ records_of vs) }
    ensures put { (J : List Record) (u : Update) (values : List (List ℕ)) → GivesTrueReceipts J u → AreReceiptsTrue J → AreReceiptsTrue (J ++ OwnPut u values ∷ []) }
    ensures plain { (J : List Record) (u : Update) (values : List (List ℕ)) → WritesNoReceipt u → AreReceiptsTrue J → AreReceiptsTrue (J ++ OwnPut u values ∷ []) }
    ensures receipts { (J : List Record) (u : Update) (values ids : List (List ℕ)) → no_receipt J ids ≡ None → WritesReceipts u ids → AreReceiptsTrue J → AreReceiptsTrue (J ++ OwnPut u values ∷ []) }
    ensures due { (J : List Record) (ids : List (List ℕ)) (h : List ℕ) → no_receipt J ids ≡ None → IsIn h ids → HoldsAllOf J h }
{}

/// What a receipt speaks of holds in every later journal: the update is accepted, and all its values are held. Once a
/// journal holds a value under a name, it holds the same value under it ever after.
pub fn receipts_speak_of_held_values()
    ensures speaks { (J : List Record) (u : Update) (h : List ℕ) → AreReceiptsTrue J → IsIn u (puts_of J) → length h ≡ 32 → gives_receipt h u ≡ true → HoldsAllOf J h }
    ensures stays { (J more : List Record) (h : List ℕ) → HoldsAllOf J h → HoldsAllOf (J ++ more) h }
    ensures same { (J more : List Record) (n : NamedValue) (v : List ℕ) → held_as J n ≡ Some v → held_as (J ++ more) n ≡ Some v }
{}

/// Let no correct node's signature be forged, and let each correct node's receipts be true. Where a correct node has receipts
/// of more nodes than there are nodes of the roster that aren't correct, some correct node has accepted the update and holds
/// all its values. Nothing is assumed of hashes.
pub fn settled_law()
    ensures { (W : World) (k : ℕ) → IsWorld W → IsAuthentic W → HaveTrueReceipts W → count_incorrect W < k → ReceiptsSettle W k }
{}
