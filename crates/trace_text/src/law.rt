//! From the texts of before a message had more than one int to the texts of today.

ghost use Rattle.trace_text.specs.Laws.{FirstTextStays, FirstTracesStay, FirstTracesOnly};

/// A trace whose messages have one int each has the text that it had when a message was one int.
/// What a text spelled then it spells now, and nothing else; and no other text spells such a trace.
pub fn the_first_version_stays()
    ensures text { FirstTextStays }
    ensures traces { FirstTracesStay }
    ensures only { FirstTracesOnly }
{}
