// Worked examples as tests: scales, surveys, files of measured lines, scripts and board texts.
#![tactic(auto)]

#[cfg(test)]
mod board_texts;
#[cfg(test)]
mod desks;
#[cfg(test)]
mod measured_lines;
#[cfg(test)]
mod other_scales;
#[cfg(test)]
mod percents;
#[cfg(test)]
mod plain_texts;
#[cfg(test)]
mod scripts;
#[cfg(test)]
mod survey_tables;
