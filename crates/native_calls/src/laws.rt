//! Laws of rows. They have no bodies: each is its contract.

ghost use Rattle.std.specs.Prelude.{◌≡◌, ◌∷◌, [], filter, length, not};
ghost use Rattle.std.specs.List.{range_with_len};
ghost use Rattle.native_model.specs.Table.{cases};
ghost use Rattle.native_calls.specs.Rows.{is_coded};

/// All rows of the table have code but that of `Fs.list`, row 111.
pub fn all_rows_but_one_are_coded()
    ensures { filter (λ at. not (is_coded at)) (range_with_len 0 (length cases)) ≡ 111 ∷ [] }
{}
