//! The names of the ops, by what they are about.
ghost use Rattle.std.specs.Prelude.{◌≡◌};
ghost use Rattle.rd_script.specs.Table.{name_of};

use crate::word::beside;

/// An op's name.
#[derive(Clone, Copy)]
pub enum Name {
    Text(TextOp),
    Property(PropertyOp),
    Object(ObjectOp),
    Window(WindowOp),
    Screen(ScreenOp),
}

/// The ops about buffers and their texts.
#[derive(Clone, Copy)]
pub enum TextOp {
    Buffer,
    Insert,
    InsertRaw,
    Type,
    Delete,
    Narrow,
    Widen,
}

/// The ops about properties, overlays and settings.
#[derive(Clone, Copy)]
pub enum PropertyOp {
    Put,
    Overlay,
    OverlayMove,
    OverlayDrop,
    OverlayPut,
    MarginPut,
    Setting,
}

/// The ops that make objects.
#[derive(Clone, Copy)]
pub enum ObjectOp {
    String,
    Spec,
    Face,
    Table,
}

/// The ops about windows.
#[derive(Clone, Copy)]
pub enum WindowOp {
    Split,
    Remove,
    Select,
    Show,
    Point,
    Start,
    Scroll,
    Hscroll,
    Wrap,
    ModeLine,
    Go,
    Hit,
    Margin,
}

/// The ops about the whole screen.
#[derive(Clone, Copy)]
pub enum ScreenOp {
    Frame,
    Scrolling,
    Echo,
    Redisplay,
    Shift,
}

/// The text of each name.
const NAMES: [(&'static str, Name); 36] = [
    ("frame", Name::Screen(ScreenOp::Frame)),
    ("buffer", Name::Text(TextOp::Buffer)),
    ("insert", Name::Text(TextOp::Insert)),
    ("insert_raw", Name::Text(TextOp::InsertRaw)),
    ("type", Name::Text(TextOp::Type)),
    ("delete", Name::Text(TextOp::Delete)),
    ("narrow", Name::Text(TextOp::Narrow)),
    ("widen", Name::Text(TextOp::Widen)),
    ("put", Name::Property(PropertyOp::Put)),
    ("overlay", Name::Property(PropertyOp::Overlay)),
    ("overlay_move", Name::Property(PropertyOp::OverlayMove)),
    ("overlay_drop", Name::Property(PropertyOp::OverlayDrop)),
    ("overlay_put", Name::Property(PropertyOp::OverlayPut)),
    ("margin_put", Name::Property(PropertyOp::MarginPut)),
    ("setting", Name::Property(PropertyOp::Setting)),
    ("string", Name::Object(ObjectOp::String)),
    ("spec", Name::Object(ObjectOp::Spec)),
    ("face", Name::Object(ObjectOp::Face)),
    ("table", Name::Object(ObjectOp::Table)),
    ("split", Name::Window(WindowOp::Split)),
    ("remove", Name::Window(WindowOp::Remove)),
    ("select", Name::Window(WindowOp::Select)),
    ("show", Name::Window(WindowOp::Show)),
    ("point", Name::Window(WindowOp::Point)),
    ("start", Name::Window(WindowOp::Start)),
    ("scroll", Name::Window(WindowOp::Scroll)),
    ("hscroll", Name::Window(WindowOp::Hscroll)),
    ("wrap", Name::Window(WindowOp::Wrap)),
    ("mode_line", Name::Window(WindowOp::ModeLine)),
    ("go", Name::Window(WindowOp::Go)),
    ("hit", Name::Window(WindowOp::Hit)),
    ("margin", Name::Window(WindowOp::Margin)),
    ("scrolling", Name::Screen(ScreenOp::Scrolling)),
    ("echo", Name::Screen(ScreenOp::Echo)),
    ("redisplay", Name::Screen(ScreenOp::Redisplay)),
    ("shift", Name::Screen(ScreenOp::Shift)),
];

impl Name {
    /// The name that a text is, and None where no op has it.
    pub fn of(text: &str) -> Option<Name>
        ensures { result ≡ name_of text.now }
    {
        beside(&NAMES, text)
    }
}
