//! Keys of groups.
ghost use Rattle.std.specs.Prelude.{◌≡◌, ◌++◌, ◌∷◌, false, List};
ghost use Rattle.std.specs.List.{IsDistinct};
ghost use Rattle.sym_base.specs.declared.values.value.Key.{Key as OneKey};
ghost use Rattle.sym_check.specs.Meaning.Groups.{is_among, is_key};

/// Of distinct keys, as those of groups are, each is another than those before it: a group that is
/// taken up in its turn is new among the groups so far.
pub fn keys_before_another_are_others()
    ensures { (before rest : List OneKey) (key : OneKey) →
        IsDistinct is_key (before ++ key ∷ rest) → is_among key before ≡ false }
{}
