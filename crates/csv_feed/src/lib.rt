// A record of CSV text, read and fed in one call: questions 4, 18, 19, then 5 to 12.
#![tactic(auto)]

ghost use Rattle.strokes.specs.Columns.{written_in, SameColumns};
ghost use Rattle.feed.specs.PortClaims.{PortDemand3};
ghost use Rattle.csv_text.specs.Records.{read_text};
ghost use Rattle.csv_text.specs.Claims.{ReadsBack, OneDivision};
ghost use Rattle.csv_feed.specs.RecordCalls.{RecordsFeed};
ghost use Rattle.csv_feed.specs.RecordAnswered.{RecordAnswers};

use bars::Question;
use feed::{Czsc, Events};
use stores::{MergedColumnsMut, RawColumnsMut};
use strokes::{FractalColumnsMut, StoreColumns};

// What the feed of a record answers: strokes made, broken and shed, and the record's length in bytes, quotes and CRLF included.
#[derive(Clone, Copy)]
pub struct FedRecord {
    pub events: Events,
    pub length: usize,
}

// The text's first record, which stands at this place of a list of records, from 0, is read and fed. What follows it is not looked at. A list of such calls is one of feed calls, so that it obeys demand 3.
// Question 4 is asked before the number of a text that cannot be read is told.
// Kept: the analyzer and four values to be written: strokes/lent_columns.rt says why no value has them all.
pub fn update_record(
    czsc: &mut Czsc,
    raw: &mut RawColumnsMut<'_>,
    unfinished: &mut MergedColumnsMut<'_>,
    strokes: &mut MergedColumnsMut<'_>,
    fractals: &mut FractalColumnsMut<'_>,
    text: &[u8],
    place: usize,
) -> Result<FedRecord, Question>
    ensures fed { RecordAnswers czsc.old.stand (written_in raw.old unfinished.old strokes.old fractals.old) (read_text place text.now) result czsc.new.stand (written_in raw.new unfinished.new strokes.new fractals.new) }
    ensures feeds { RecordsFeed }
    ensures demand3 { PortDemand3 }
    ensures reads_back { ReadsBack }
    ensures one_division { OneDivision }
    ensures same { SameColumns raw.old unfinished.old strokes.old fractals.old raw.new unfinished.new strokes.new fractals.new }
{
    match csv_text::bar_of_text(text, place) {
        Ok((bar, length)) => {
            let events = czsc.update_bar(raw, unfinished, strokes, fractals, bar)?;
            Ok(FedRecord { events, length })
        }
        Err(unread) => {
            let stores = StoreColumns::of(raw, unfinished, strokes, fractals);
            question4::ask(czsc.stand, stores)?;
            Err(unread)
        }
    }
}
