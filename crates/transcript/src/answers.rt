// The answer of a call, as it stands in the line of the answers.
ghost use Rattle.std.specs.Prelude.{◌∷◌};
ghost use Rattle.atlite.specs.Printer.{print_number};
ghost use Rattle.refusals.specs.ReturnedAs.{returned_as, moved_as};
ghost use Rattle.showing.specs.Put.{Put};
ghost use Rattle.transcript.specs.AnswerTexts.{gap, told, Told};

use atlite::Moved;
use refusals::Refusal;
use showing::Writer;

// Between two answers stands a space: `i` were written before.
pub fn put_space(i: usize, text: &mut Writer<'_>)
    ensures { Put text.old (gap i) text.new }
{
    if i != 0 {
        text.put(b' ');
    }
}

// The letter of an answer with the actor that it names.
fn put_named(letter: u8, actor: u8, text: &mut Writer<'_>)
    ensures { Told text.old (letter ∷ print_number actor) text.new }
{
    text.put(letter);
    text.put_number(u32::from(actor));
}

// What a call came to: a letter, with the actor that it names, or the number of the cause that refused it.
pub fn put_answer<C: Refusal>(answer: Result<Moved, C>, text: &mut Writer<'_>)
    ensures { Told text.old (told (returned_as moved_as C.number answer)) text.new }
{
    match answer {
        Ok(Moved::Inner) => text.put(b'I'),
        Ok(Moved::Taken) => text.put(b'T'),
        Ok(Moved::Sent(actor)) => put_named(b'S', actor.0, text),
        Ok(Moved::Created(actor)) => put_named(b'C', actor.0, text),
        Err(cause) => text.put_number(u32::from(cause.number())),
    }
}
