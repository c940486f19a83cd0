//! The elements of an SVG, as text. Lengths are in pixels.

use std::alloc::{AllocError, Global};
use std::fmt::Display;

/// How high a bar is.
pub const BAR: u64 = 14;

const STYLE: &str = "<style>\
text{font:11px Helvetica,Arial,sans-serif;fill:#222}.lane{font-size:12px;font-weight:bold}\
.answer,.below,.over{fill:#555;font-size:10px;text-anchor:end}.over{fill:#c62828}\
.below{paint-order:stroke;stroke:#fff;stroke-width:3px}\
path{fill:none;stroke-linejoin:round}.base{stroke:#ddd}.way{stroke:#bbb}.life{stroke:#666;stroke-width:2}\
.waits{stroke:#7a3fb0;stroke-dasharray:2 3}.band{fill:#fbe9e7}\
.call{fill:#dbe9f8;stroke:#5b84b1}.poll{fill:#c9e8c5;stroke:#3c8d40}\
.wake{stroke:#d9730d;stroke-width:2;fill:#d9730d}.notify{stroke:#7a3fb0;stroke-width:2}\
.drop{stroke:#c62828;stroke-width:3}.given{stroke:#00838f;fill:#00838f}.lost{stroke:#00838f;fill:#fff}\
.other{stroke:#888;stroke-width:6;stroke-linecap:round}\
</style>\n";

/// The text of an SVG that is being written. Each call appends an element of a class, which says how it looks.
#[derive(Drop)]
pub struct Svg {
    text: String,
}

impl Svg {
    /// One of this size, white all over.
    pub fn new(alloc: Global, width: u64, height: u64) -> Result<Svg, AllocError> {
        let mut text = String::new(alloc);
        write!(
            text,
            "<svg xmlns=\"http://www.w3.org/2000/svg\" width=\"{width}\" height=\"{height}\""
        )?;
        writeln!(text, " viewBox=\"0 0 {width} {height}\">")?;
        text.push_str(STYLE)?;
        text.push_str("<rect width=\"100%\" height=\"100%\" fill=\"#fff\"/>\n")?;
        Ok(Svg { text })
    }

    /// A band from the top down to this height.
    pub fn band(&mut self, x: u64, width: u64, height: u64) -> Result<(), AllocError> {
        writeln!(
            self.text,
            "<rect class=\"band\" x=\"{x}\" width=\"{width}\" height=\"{height}\"/>"
        )
    }

    /// A bar with its left edge and its middle here.
    pub fn bar(&mut self, class: &str, x: u64, y: u64, width: u64) -> Result<(), AllocError> {
        let y = y.saturating_sub(BAR / 2);
        writeln!(
            self.text,
            "<rect class=\"{class}\" x=\"{x}\" y=\"{y}\" width=\"{width}\" height=\"{BAR}\"/>"
        )
    }

    /// A path from here on.
    pub fn path<D: Display + Drop>(
        &mut self,
        class: &str,
        x: u64,
        y: u64,
        rest: D,
    ) -> Result<(), AllocError> {
        writeln!(self.text, "<path class=\"{class}\" d=\"M{x} {y}{rest}\"/>")
    }

    /// A text with its middle at this height.
    pub fn text(&mut self, class: &str, x: u64, y: u64, text: &str) -> Result<(), AllocError> {
        let y = y.saturating_add(4);
        writeln!(
            self.text,
            "<text class=\"{class}\" x=\"{x}\" y=\"{y}\">{text}</text>"
        )
    }

    /// The whole text.
    pub fn end(mut self) -> Result<String, AllocError> {
        self.text.push_str("</svg>\n")?;
        Ok(self.text)
    }
}
