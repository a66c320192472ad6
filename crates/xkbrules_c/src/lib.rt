// The functions that C calls: each is the one of its name in `xkbrules`, exported with its clauses. A slice is a pointer and a length for C;
// include/xkbrules.h declares them.
#![tactic(auto)]

ghost use Rattle.std.specs.Prelude.{◌≡◌, length};
ghost use Rattle.profile.specs.Profile.{texts_of};
ghost use Rattle.answers.specs.Answer.{buffer_after};
ghost use Rattle.xkbrules.specs.Sheet.{entry_answer, code, sheet_after, component_code};
ghost use Rattle.xkbrules.specs.Cards.{CardWrites, CardReads};

#[unsafe(no_mangle)]
pub extern "C" fn xkbrules_resolve(
    rules: &[u8],
    model: &[u8],
    layouts: &[u8],
    variants: &[u8],
    options: &[u8],
    texts: &mut [u8],
    sheet: &mut [u8],
) -> u64
    ensures { (result ≡ code (entry_answer (length texts.old) (length sheet.old) rules.now
        (texts_of model.now layouts.now variants.now options.now)))
        × (texts.new ≡ buffer_after texts.old (entry_answer (length texts.old) (length sheet.old) rules.now
        (texts_of model.now layouts.now variants.now options.now)))
        × (sheet.new ≡ sheet_after sheet.old (entry_answer (length texts.old) (length sheet.old) rules.now
        (texts_of model.now layouts.now variants.now options.now))) }
{
    xkbrules::xkbrules_resolve(rules, model, layouts, variants, options, texts, sheet)
}

#[unsafe(no_mangle)]
pub extern "C" fn xkbrules_component(texts: &[u8], sheet: &[u8], component: u64) -> u64
    ensures { result ≡ component_code (length texts.now) sheet.now component }
{
    xkbrules::xkbrules_component(texts, sheet, component)
}

#[unsafe(no_mangle)]
pub extern "C" fn xkbrules_card_write(
    model: &[u8],
    layouts: &[u8],
    variants: &[u8],
    options: &[u8],
    texts: &[u8],
    sheet: &[u8],
    card: &mut [u8],
) -> u64
    ensures { CardWrites (texts_of model.now layouts.now variants.now options.now)
        texts.now sheet.now card.old card.new result }
{
    xkbrules::cards::xkbrules_card_write(model, layouts, variants, options, texts, sheet, card)
}

#[unsafe(no_mangle)]
pub extern "C" fn xkbrules_card_read(card: &[u8], texts: &mut [u8], sheet: &mut [u8]) -> u64
    ensures { CardReads card.now texts.old texts.new sheet.old sheet.new result }
{
    xkbrules::cards::xkbrules_card_read(card, texts, sheet)
}
