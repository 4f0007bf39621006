//! Each setting, and how it is read.
use crate::claims::assert_each;
use rd_base::{Direction, Invisible};
use rd_script::{Op, Setting, read_op};
use std::alloc::Global;

/// Each setting by its name, which a failure tells.
const SETTINGS: [(&'static str, &'static str); 11] = [
    case!("tab_width" => r#"{"op":"setting","buffer":"a","name":"tab_width","value":1}"#),
    case!("ctl_arrow" => r#"{"op":"setting","buffer":"a","name":"ctl_arrow","value":false}"#),
    case!("direction" => r#"{"op":"setting","buffer":"a","name":"direction","value":"right"}"#),
    case!("reorder" => r#"{"op":"setting","buffer":"a","name":"reorder","value":false}"#),
    case!("table" => r#"{"op":"setting","buffer":"a","name":"table","value":64}"#),
    case!("all invisible" => r#"{"op":"setting","buffer":"a","name":"invisible","value":true}"#),
    case!("invisible" => r#"{"op":"setting","buffer":"a","name":"invisible","value":[[65535,true]]}"#),
    case!("line_prefix" => r#"{"op":"setting","buffer":"a","name":"line_prefix"}"#),
    case!("wrap_prefix" => r#"{"op":"setting","buffer":"a","name":"wrap_prefix","value":18446744073709551615}"#),
    case!("modified" => r#"{"op":"setting","buffer":"a","name":"modified","value":true}"#),
    case!("read_only" => r#"{"op":"setting","buffer":"a","name":"read_only","value":true}"#),
];

#[test]
fn each_setting_is_read(rt: HostRuntime) {
    assert_each(&rt, &SETTINGS, |name, line| sets(rt.alloc(), line, name));
}

/// Whether a line is read as the setting of a name.
fn sets(alloc: Global, line: &str, name: &str) -> bool {
    match read_op(alloc, line.as_bytes()) {
        Ok(Op::Setting { setting, .. }) => is_setting(&setting, name),
        _ => false,
    }
}

/// Whether a setting is the one that stands under its name in the table of settings above.
fn is_setting(setting: &Setting, name: &str) -> bool {
    match setting {
        Setting::TabWidth(columns) => name == "tab_width" && *columns == 1,
        Setting::CtlArrow(flag) => name == "ctl_arrow" && !*flag,
        Setting::Direction(direction) => name == "direction" && *direction == Direction::Right,
        Setting::Reorder(flag) => name == "reorder" && !*flag,
        Setting::Table(number) => name == "table" && *number == Some(64),
        Setting::Invisible(invisible) => is_hiding(invisible, name),
        Setting::LinePrefix(number) => name == "line_prefix" && number.is_none(),
        Setting::WrapPrefix(number) => name == "wrap_prefix" && *number == Some(u64::MAX),
        Setting::Modified(flag) => name == "modified" && *flag,
        Setting::ReadOnly(flag) => name == "read_only" && *flag,
    }
}

/// Whether what is hidden is what stands under its name in that table.
fn is_hiding(invisible: &Invisible, name: &str) -> bool {
    match invisible {
        Invisible::Every => name == "all invisible",
        Invisible::Listed(pairs) => {
            name == "invisible" && pairs.len() == 1 && pairs.at(0) == (65_535, true)
        }
    }
}
