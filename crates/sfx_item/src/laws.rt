ghost use Rattle.std.specs.Prelude.{◌≡◌, ◌↔◌, ℕ, ◌++◌, List, [], ◌∷◌, Some, None, true, false, codes, replicate, IsTrue};
ghost use Rattle.sfx_item.specs.Clash.{Clash};
ghost use Rattle.sfx_item.specs.Decided.{is_clash, is_wrong_at, name_fault};
ghost use Rattle.sfx_item.specs.Name.{IsFirstWrongInName, IsName, IsWrongAt};
ghost use Rattle.sfx_item.specs.Renamed.{renamed};

/// Nothing is wrong with a name, at any index.
pub fn nothing_is_wrong_with_names()
    ensures { (bytes : List ℕ) → (at : ℕ) → IsName bytes → ¬ IsWrongAt bytes at }
{}

/// The functions on names compute what the relations say: whether something is wrong at an index, the
/// least such index, which a name has none of, and whether two names clash, in either order.
pub fn names_are_decided()
    ensures wrong { (bytes : List ℕ) (at : ℕ) → IsTrue (is_wrong_at bytes at) ↔ IsWrongAt bytes at }
    ensures fault { (bytes : List ℕ) (at : ℕ) → (name_fault bytes ≡ Some at) ↔ IsFirstWrongInName bytes at }
    ensures name { (bytes : List ℕ) → (name_fault bytes ≡ None) ↔ IsName bytes }
    ensures clash { (a b : List ℕ) → IsTrue (is_clash a b) ↔ Clash a b }
    ensures symmetric { (a b : List ℕ) → is_clash a b ≡ is_clash b a }
{}

/// The functions on small texts.
pub fn names_on_examples()
    ensures empty { name_fault (codes "") ≡ Some 0 }
    ensures first { name_fault (codes "/a") ≡ Some 0 }
    ensures last { name_fault (codes "a/") ≡ Some 2 }
    ensures middle { name_fault (codes "a//b") ≡ Some 2 }
    ensures dot { name_fault (codes "a/./b") ≡ Some 2 }
    ensures long { name_fault (replicate 260 97) ≡ Some 255 }
    ensures control { name_fault (97 ∷ 194 ∷ 159 ∷ []) ≡ Some 1 }
    ensures no_text { name_fault (97 ∷ 195 ∷ []) ≡ Some 1 }
    ensures name { name_fault (codes "a/b.c") ≡ None }
    ensures within { is_clash (codes "dir") (codes "dir/f") ≡ true }
    ensures beside { is_clash (codes "dir") (codes "dir2/f") ≡ false }
{}

/// New names on small texts.
pub fn new_names_on_examples()
    ensures plain { renamed (codes "dir") 1 ≡ codes "dir~1" }
    ensures marked { renamed (codes "dir~7/f") 2 ≡ codes "dir~2/f" }
    ensures mark_alone { renamed (codes "~3") 1 ≡ codes "~1" }
    ensures no_mark { renamed (codes "a~b~") 1 ≡ codes "a~b~~1" }
    ensures cut_short { renamed (replicate 255 97) 1 ≡ replicate 253 97 ++ codes "~1" }
    ensures no_room { renamed (97 ∷ 47 ∷ replicate 253 98) 1 ≡ codes "~1" }
{}
