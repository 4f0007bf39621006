//! The settings of one buffer.
ghost use Rattle.std.specs.Prelude.{◌≡◌, ◌<◌, IfSome};
ghost use Rattle.rd_script.specs.Forms.{IsSettingInForm};
ghost use Rattle.rd_state.specs.Edits.{with_setting};
ghost use Rattle.rd_state.specs.Held.{IsFitting};

use rd_base::Settings;
use rd_script::Setting;

/// Sets a setting.
pub(crate) fn put(settings: &mut Settings, setting: Setting)
    requires form { IsSettingInForm setting }
    requires numbers { IsFitting setting }
    ensures { settings.new ≡ with_setting setting settings.old }
{
    match setting {
        Setting::TabWidth(width) => settings.tab_width = width,
        Setting::CtlArrow(flag) => settings.ctl_arrow = flag,
        Setting::Direction(direction) => settings.direction = direction,
        Setting::Reorder(flag) => settings.reorder = flag,
        Setting::Table(number) => settings.table = in_32_bits(number),
        Setting::Invisible(invisible) => settings.invisible = invisible,
        Setting::LinePrefix(number) => settings.line_prefix = in_32_bits(number),
        Setting::WrapPrefix(number) => settings.wrap_prefix = in_32_bits(number),
        Setting::Modified(flag) => settings.modified = flag,
        Setting::ReadOnly(flag) => settings.read_only = flag,
    }
}

/// A number in 32 bits, where there is one.
fn in_32_bits(number: Option<u64>) -> Option<u32>
    requires { IfSome number (λ n. n < 4294967296) }
    ensures { result ≡ number }
{
    Some(number? as u32)
}
