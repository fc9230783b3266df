// What the calls answer: a refusal alone, or what was found or how many records were written.
use columns::refusal::Refusal;
