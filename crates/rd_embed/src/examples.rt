//! The definitions on worked examples.
ghost use Rattle.std.specs.Prelude.{◌≡◌, ◌∷◌, [], None, Some, Ok, Err, true, false, codes};
ghost use Rattle.rd_script.specs.declared.fault.OpFault.TheVariants.{BadField};
ghost use Rattle.rd_script.specs.declared.op.Op.TheVariants.{Frame, Go, Split};
ghost use Rattle.rd_script.specs.declared.setting.Setting.TheVariants.{Modified, TabWidth, Table};
ghost use Rattle.rd_state.specs.declared.refused.Refused.TheVariants.{OutOfRange};
ghost use Rattle.rd_tree.specs.declared.side.Side.TheVariants.{Right};
ghost use Rattle.rd_embed.specs.Asked.{asked_frame, asked_go, asked_split};
ghost use Rattle.rd_embed.specs.Choices.{colour_of, given, setting_of};
ghost use Rattle.rd_embed.specs.Endings.{status_of, words_of};
ghost use Rattle.rd_embed.specs.Fills.{fitted, fitting};
ghost use Rattle.rd_embed.specs.Statuses.{code_of};
ghost use Rattle.rd_embed.specs.declared.ending.Ending.TheVariants.{BadArgument, NoMemory, NoOp, Refused as WasRefused};

/// What is told of a fault: its number, and the report's words.
fn faults_are_told()
    ensures range { code_of (status_of (WasRefused OutOfRange)) ≡ 36 }
    ensures words { words_of (WasRefused OutOfRange) ≡ codes "OutOfRange" }
    ensures field { words_of (NoOp (BadField (codes "pos"))) ≡ codes "BadField pos" }
    ensures number { code_of (status_of (NoOp (BadField (codes "pos")))) ≡ 20 }
    ensures memory { code_of (status_of NoMemory) ≡ 3 }
{}

/// The ops that calls ask for, and arguments that are out of range.
fn calls_ask_for_ops()
    ensures frame { asked_frame 80 24 ≡ Ok (Frame 80 24) }
    ensures narrow { asked_frame 11 24 ≡ Err BadArgument }
    ensures side { asked_split 0 1 40 ≡ Ok (Split 0 Right 40) }
    ensures no_side { asked_split 0 2 40 ≡ Err BadArgument }
    ensures left { asked_go 3 2 ≡ Ok (Go 3 false) }
    ensures no_way { asked_go 3 0 ≡ Err BadArgument }
{}

/// What numbers stand for.
fn numbers_stand_for_values()
    ensures tabs { setting_of 0 4 ≡ Some (TabWidth 4) }
    ensures no_tabs { setting_of 0 33 ≡ None }
    ensures table { setting_of 4 4294967295 ≡ Some (Table None) }
    ensures modified { setting_of 7 1 ≡ Some (Modified true) }
    ensures unknown { setting_of 9 0 ≡ None }
    ensures none { given 4294967295 ≡ None }
    ensures colour { colour_of 8 ≡ None }
    ensures no_colour { colour_of 4294967295 ≡ Some 8 }
{}

/// Texts that fit whole: the second character has two bytes, and the last does not fit.
fn texts_fit_whole()
    ensures count { fitting 4 ((97 ∷ []) ∷ (195 ∷ 169 ∷ []) ∷ (195 ∷ 169 ∷ []) ∷ []) ≡ 2 }
    ensures bytes { fitted 4 ((97 ∷ []) ∷ (195 ∷ 169 ∷ []) ∷ (195 ∷ 169 ∷ []) ∷ []) ≡ 97 ∷ 195 ∷ 169 ∷ [] }
    ensures none { fitting 0 ((97 ∷ []) ∷ []) ≡ 0 }
{}
