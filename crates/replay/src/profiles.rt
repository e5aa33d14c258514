// Profiles: a mode, how many pushes, five numbers of each, and the words that the original handed out.
use crate::line::Numbers;
use profile::ProfileSerializer;
use script::Step;

// One push: mask, presence, word, phase, ACR.
fn push(numbers: &mut Numbers) -> Step {
    let mask = numbers.next();
    let presence = numbers.next();
    let word = profile::signed(numbers.next());
    let phase = numbers.next();
    let acr = numbers.next();
    script::step_of(0, mask, presence, word, phase, acr)
}

pub fn played(mut numbers: Numbers) -> bool {
    let Ok(mut serializer) = ProfileSerializer::new(numbers.next()) else {
        return false;
    };
    for _ in 0..numbers.next() % 32 {
        let stepped = script::step_by(serializer, push(&mut numbers));
        if stepped.answer.is_err() {
            return false;
        }
        serializer = stepped.serializer;
    }
    // `finalize` fills what it is lent, and no profile takes more than eight words.
    let mut words = [0u32; 8];
    let Ok(count) = serializer.finalize(&mut words) else {
        return false;
    };
    let mut good = count == numbers.next() as usize;
    for word in words.iter().take(count) {
        good = good && *word == numbers.next();
    }
    good
}
