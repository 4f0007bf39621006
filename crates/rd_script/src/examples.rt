//! The definition of reading, computed on worked lines.
#![tactic(auto, unfolding(crate::proofs::OnLines::on_lines))]

ghost use Rattle.std.specs.Prelude.{◌≡◌, ◌∷◌, [], codes, negsuc, Ok, Err, None, Some, true, false};
ghost use Rattle.rd_script.specs.declared.fault.OpFault.TheVariants as faults;
ghost use Rattle.rd_script.specs.declared.object.OpSpec.TheVariants as specs;
ghost use Rattle.rd_script.specs.declared.op.Op.TheVariants as ops;
ghost use Rattle.rd_script.specs.declared.setting.Setting.TheVariants as settings;
ghost use Rattle.rd_base.specs.declared.settings.Direction.TheVariants as directions;
ghost use Rattle.rd_base.specs.declared.settings.Invisible.TheVariants.{Every, Listed};
ghost use Rattle.rd_base.specs.declared.settings.Wrap.TheVariants as wraps;
ghost use Rattle.rd_objects.specs.declared.run.RunKind.TheVariants as run_kinds;
ghost use Rattle.rd_overlays.specs.declared.overlay.Kind.TheVariants as kinds;
ghost use Rattle.rd_tree.specs.declared.side.Side.TheVariants as sides;
ghost use Rattle.rd_script.specs.Reading.{reading};

/// Lines about buffers and their texts.
fn worked_texts()
    ensures buffer { reading (codes "{\"op\":\"buffer\",\"name\":\"b c\"}") ≡ Ok (ops.Buffer (codes "b c")) }
    ensures insert { reading (codes "{\"op\":\"insert\",\"buffer\":\"a\",\"pos\":3,\"text\":\"x\\ny\"}") ≡ Ok (ops.Insert (codes "a") 3 (120 ∷ 10 ∷ 121 ∷ [])) }
    ensures raw { reading (codes "{\"op\":\"insert_raw\",\"buffer\":\"a\",\"pos\":1,\"bytes\":[128,255]}") ≡ Ok (ops.InsertRaw (codes "a") 1 (128 ∷ 255 ∷ [])) }
    ensures ascii { reading (codes "{\"op\":\"insert_raw\",\"buffer\":\"a\",\"pos\":1,\"bytes\":[128,127]}") ≡ Err (faults.BadField (codes "bytes")) }
    ensures typed { reading (codes "{\"op\":\"x\",\"op\":\"type\",\"text\":\"ab\"}") ≡ Ok (ops.TypeText (97 ∷ 98 ∷ [])) }
    ensures delete { reading (codes "{\"op\":\"delete\",\"buffer\":\"a\",\"from\":1,\"to\":18446744073709551615}") ≡ Ok (ops.Delete (codes "a") 1 18446744073709551615) }
    ensures narrow { reading (codes "{\"op\":\"narrow\",\"buffer\":\"a\",\"from\":2,\"to\":5}") ≡ Ok (ops.Narrow (codes "a") 2 5) }
    ensures widen { reading (codes "{\"op\":\"widen\",\"buffer\":\"a\"}") ≡ Ok (ops.Widen (codes "a")) }
{}

/// Lines about properties, overlays and settings.
fn worked_properties()
    ensures put { reading (codes "{\"op\":\"put\",\"buffer\":\"a\",\"from\":1,\"to\":3,\"kind\":\"display\",\"value\":7}") ≡ Ok (ops.Put (codes "a") 1 3 kinds.Display (Some 7)) }
    ensures taken { reading (codes "{\"op\":\"put\",\"buffer\":\"a\",\"from\":1,\"to\":3,\"kind\":\"invisible\",\"value\":null}") ≡ Ok (ops.Put (codes "a") 1 3 kinds.Invisible None) }
    ensures atom { reading (codes "{\"op\":\"put\",\"buffer\":\"a\",\"from\":1,\"to\":3,\"kind\":\"invisible\",\"value\":65536}") ≡ Err (faults.BadField (codes "value")) }
    ensures before { reading (codes "{\"op\":\"put\",\"buffer\":\"a\",\"from\":1,\"to\":3,\"kind\":\"before\"}") ≡ Err (faults.BadField (codes "kind")) }
    ensures overlay { reading (codes "{\"op\":\"overlay\",\"buffer\":\"a\",\"from\":2,\"to\":3,\"priority\":-1,\"rear\":true}") ≡ Ok (ops.Overlay (codes "a") 2 3 (negsuc 0) false true) }
    ensures moved { reading (codes "{\"op\":\"overlay_move\",\"buffer\":\"a\",\"overlay\":0,\"from\":1,\"to\":2}") ≡ Ok (ops.OverlayMove (codes "a") 0 1 2) }
    ensures dropped { reading (codes "{\"op\":\"overlay_drop\",\"buffer\":\"a\",\"overlay\":7}") ≡ Ok (ops.OverlayDrop (codes "a") 7) }
    ensures after { reading (codes "{\"op\":\"overlay_put\",\"buffer\":\"a\",\"overlay\":0,\"kind\":\"after\",\"value\":4}") ≡ Ok (ops.OverlayPut (codes "a") 0 kinds.After (Some 4)) }
    ensures margin { reading (codes "{\"op\":\"margin_put\",\"buffer\":\"a\",\"overlay\":0}") ≡ Ok (ops.MarginPut (codes "a") 0 None) }
    ensures tab { reading (codes "{\"op\":\"setting\",\"buffer\":\"a\",\"name\":\"tab_width\",\"value\":32}") ≡ Ok (ops.Setting (codes "a") (settings.TabWidth 32)) }
    ensures direction { reading (codes "{\"op\":\"setting\",\"buffer\":\"a\",\"name\":\"direction\",\"value\":\"left\"}") ≡ Ok (ops.Setting (codes "a") (settings.Direction directions.Left)) }
    ensures no_table { reading (codes "{\"op\":\"setting\",\"buffer\":\"a\",\"name\":\"table\"}") ≡ Ok (ops.Setting (codes "a") (settings.Table None)) }
    ensures invisible { reading (codes "{\"op\":\"setting\",\"buffer\":\"a\",\"name\":\"invisible\",\"value\":[[5,true]]}") ≡ Ok (ops.Setting (codes "a") (settings.Invisible (Listed ((5, true) ∷ [])))) }
    ensures every { reading (codes "{\"op\":\"setting\",\"buffer\":\"a\",\"name\":\"invisible\",\"value\":true}") ≡ Ok (ops.Setting (codes "a") (settings.Invisible Every)) }
    ensures absent { reading (codes "{\"op\":\"setting\",\"buffer\":\"a\",\"name\":\"reorder\"}") ≡ Err (faults.Missing (codes "value")) }
    ensures null { reading (codes "{\"op\":\"setting\",\"buffer\":\"a\",\"name\":\"reorder\",\"value\":null}") ≡ Err (faults.BadField (codes "value")) }
{}

/// Lines that make objects.
fn worked_objects()
    ensures string { reading (codes "{\"op\":\"string\",\"text\":\"ab\",\"runs\":[[0,1,\"face\",7]]}") ≡ Ok (ops.AddString (97 ∷ 98 ∷ []) (record { from = 0; to = 1; kind = run_kinds.Face; value = 7 } ∷ [])) }
    ensures spec { reading (codes "{\"op\":\"spec\",\"kind\":\"align\",\"value\":400}") ≡ Ok (ops.AddSpec (specs.Align 400)) }
    ensures wide { reading (codes "{\"op\":\"spec\",\"kind\":\"width\",\"value\":401}") ≡ Err (faults.BadField (codes "value")) }
    ensures face { reading (codes "{\"op\":\"face\",\"fg\":7,\"underline\":true}") ≡ Ok (ops.AddFace (record { fg = 7; bg = 8; bold = false; underline = true; inverse = false })) }
    ensures table { reading (codes "{\"op\":\"table\",\"entries\":[[97,\"\"]],\"border\":null}") ≡ Ok (ops.AddTable (record { code = 97; text = [] } ∷ []) None None None None None None) }
    ensures slot { reading (codes "{\"op\":\"table\",\"border\":\"ab\"}") ≡ Err (faults.BadField (codes "border")) }
{}

/// Lines about windows.
fn worked_windows()
    ensures split { reading (codes "{\"op\":\"split\",\"window\":0,\"side\":\"right\",\"size\":11}") ≡ Ok (ops.Split 0 sides.Right 11) }
    ensures remove { reading (codes "{\"op\":\"remove\",\"window\":1}") ≡ Ok (ops.Remove 1) }
    ensures select { reading (codes "{\"op\":\"select\",\"window\":1}") ≡ Ok (ops.Select 1) }
    ensures show { reading (codes "{\"op\":\"show\",\"window\":1,\"buffer\":\"a\"}") ≡ Ok (ops.Show 1 (codes "a")) }
    ensures point { reading (codes "{\"op\":\"point\",\"window\":0,\"pos\":0}") ≡ Ok (ops.Point 0 0) }
    ensures start { reading (codes "{\"op\":\"start\",\"window\":0,\"pos\":1,\"row\":1000000}") ≡ Ok (ops.Start 0 1 1000000) }
    ensures scroll { reading (codes "{\"op\":\"scroll\",\"window\":0,\"rows\":-2}") ≡ Ok (ops.Scroll 0 (negsuc 1)) }
    ensures far { reading (codes "{\"op\":\"scroll\",\"window\":0,\"rows\":1000001}") ≡ Err (faults.BadField (codes "rows")) }
    ensures hscroll { reading (codes "{\"op\":\"hscroll\",\"window\":0,\"columns\":3}") ≡ Ok (ops.Hscroll 0 3) }
    ensures wrap { reading (codes "{\"op\":\"wrap\",\"window\":2,\"mode\":\"word\"}") ≡ Ok (ops.Wrap 2 wraps.Word) }
    ensures mode { reading (codes "{\"op\":\"mode_line\",\"window\":0,\"format\":\"%b\"}") ≡ Ok (ops.ModeLine 0 (Some (37 ∷ 98 ∷ []))) }
    ensures no_mode { reading (codes "{\"op\":\"mode_line\",\"window\":0}") ≡ Ok (ops.ModeLine 0 None) }
    ensures go { reading (codes "{\"op\":\"go\",\"window\":0,\"side\":\"right\"}") ≡ Ok (ops.Go 0 true) }
    ensures hit { reading (codes "{\"op\":\"hit\",\"window\":0,\"row\":199,\"column\":399}") ≡ Ok (ops.Hit 0 199 399) }
    ensures below { reading (codes "{\"op\":\"hit\",\"window\":0,\"row\":200,\"column\":400}") ≡ Err (faults.BadField (codes "row")) }
    ensures margin { reading (codes "{\"op\":\"margin\",\"window\":0,\"numbers\":10,\"strings\":20}") ≡ Ok (ops.Margin 0 10 20) }
{}

/// Lines about the whole screen.
fn worked_screens()
    ensures frame { reading (codes "{\"op\":\"frame\",\"width\":12,\"height\":200}") ≡ Ok (ops.Frame 12 200) }
    ensures small { reading (codes "{\"op\":\"frame\",\"width\":11,\"height\":1}") ≡ Err (faults.BadField (codes "width")) }
    ensures scrolling { reading (codes "{\"op\":\"scrolling\",\"margin\":200,\"conservatively\":100}") ≡ Ok (ops.Scrolling 200 100) }
    ensures echo { reading (codes "{\"op\":\"echo\",\"text\":\"\"}") ≡ Ok (ops.Echo []) }
    ensures shown { reading (codes "{\"op\":\"redisplay\"}") ≡ Ok (ops.Redisplay None) }
    ensures stopped { reading (codes "{\"op\":\"redisplay\",\"stop\":0}") ≡ Ok (ops.Redisplay (Some 0)) }
    ensures shift { reading (codes "{\"op\":\"shift\",\"on\":true}") ≡ Ok (ops.Shift true) }
{}

/// The first fault of lines with two.
fn worked_faults()
    ensures json { reading (codes "{\"op\":\"redi") ≡ Err faults.NotJson }
    ensures object { reading (codes "[]") ≡ Err faults.NotObject }
    ensures op { reading (codes "{\"x\":1}") ≡ Err (faults.Missing (codes "op")) }
    ensures kind_of_op { reading (codes "{\"op\":1,\"x\":1}") ≡ Err (faults.BadField (codes "op")) }
    ensures name { reading (codes "{\"op\":\"Frame\",\"x\":1}") ≡ Err faults.NoSuchOp }
    ensures in_order { reading (codes "{\"op\":\"insert\",\"buffer\":\"a\",\"pos\":-1}") ≡ Err (faults.BadField (codes "pos")) }
    ensures absent_first { reading (codes "{\"op\":\"delete\",\"to\":-1,\"from\":-1}") ≡ Err (faults.Missing (codes "buffer")) }
    ensures bad_first { reading (codes "{\"op\":\"point\",\"window\":1.0,\"x\":1}") ≡ Err (faults.BadField (codes "window")) }
    ensures field_first { reading (codes "{\"op\":\"split\",\"window\":0,\"side\":\"left\",\"a\":1,\"size\":1}") ≡ Err (faults.BadField (codes "side")) }
    ensures value_first { reading (codes "{\"op\":\"put\",\"buffer\":\"a\",\"from\":1,\"to\":1,\"kind\":\"face\",\"value\":-1,\"a\":1}") ≡ Err (faults.BadField (codes "value")) }
    ensures extra { reading (codes "{\"op\":\"widen\",\"buffer\":\"a\",\"y\":1,\"x\":1}") ≡ Err (faults.Extra (codes "x")) }
{}
